// Changes in place, within the room that is there.
ghost use Rattle.std.specs.Prelude.{◌≡◌, ◌+◌, ◌-◌, ◌≤◌, ◌++◌, [], length, replicate, vec_len, vec_capacity, IfOk, OnOk};
ghost use Rattle.ficus_disk.specs.Bytes.{patch};
ghost use Rattle.ficus_disk.specs.Platter.{image_of, marks_of, overlaid, picked_byte};
ghost use Rattle.ficus_disk.specs.Undo.{synced_in};
ghost use Rattle.ficus_disk.specs.declared.mark.Mark.TheVariants.{Clean};

use crate::fuse::Pick;
use crate::mark::Mark;
use crate::undo::Undo;
use ficus_ids::Memory;
use std::alloc::Global;

/// Writes the bytes over what is there, and past the end.
pub(crate) fn write_over(to: &mut Vec<u8>, at: usize, bytes: &[u8])
    requires place { at ≤ vec_len to.old }
    requires room { at + length bytes.now ≤ vec_capacity to.old }
    ensures items { to.new.items ≡ patch to.old.items at bytes.now }
    ensures room { vec_capacity to.old ≤ vec_capacity to.new }
{
    let inside = bytes.len().min(to.len() - at);
    to[at..at + inside].copy_from_slice(&bytes[..inside]);
    let _past = to.extend_from_slice(&bytes[inside..]);
}

/// Marks a range of so many bytes: its first half, and its rest.
pub(crate) fn mark_over(to: &mut Vec<Mark>, at: usize, count: usize)
    requires place { at ≤ vec_len to.old }
    requires room { at + count ≤ vec_capacity to.old }
    ensures items { to.new.items ≡ patch to.old.items at (marks_of count) }
    ensures room { vec_capacity to.old ≤ vec_capacity to.new }
{
    let front = count / 2;
    fill_over(to, at, front, Mark::Front);
    fill_over(to, at + front, count - front, Mark::Rest);
}

/// Writes one mark over so many places, and past the end.
pub(crate) fn fill_over(to: &mut Vec<Mark>, at: usize, count: usize, mark: Mark)
    requires place { at ≤ vec_len to.old }
    requires room { at + count ≤ vec_capacity to.old }
    ensures items { to.new.items ≡ patch to.old.items at (replicate count mark) }
    ensures room { vec_capacity to.old ≤ vec_capacity to.new }
{
    let end = to.len().max(at + count);
    let _past = to.resize(end, mark);
    fill(&mut to[at..at + count], mark);
}

/// Makes every mark this one.
fn fill(marks: &mut [Mark], mark: Mark)
    ensures { marks.new ≡ replicate (length marks.old) mark }
{
    for i in 0..marks.len() {
        marks[i] = mark;
    }
}

/// Appends clean marks where there are fewer than so many.
pub(crate) fn clean_upto(to: &mut Vec<Mark>, count: usize)
    requires { count ≤ vec_capacity to.old }
    ensures items { to.new.items ≡ to.old.items ++ replicate (count - length to.old.items) Clean }
    ensures room { vec_capacity to.old ≤ vec_capacity to.new }
{
    if to.len() < count {
        let _all = to.resize(count, Mark::Clean);
    }
}

/// Makes the bytes the image that the pick names.
pub(crate) fn become_image(bytes: &mut Vec<u8>, marks: &[Mark], undo: &Undo, pick: Pick)
    requires each { length marks.now ≡ length bytes.old.items }
    requires counted { undo.now.count ≤ length bytes.old.items }
    ensures bytes { bytes.new.items ≡ image_of
        (record { synced = synced_in undo.now bytes.old.items; marks = marks.now; bytes = bytes.old.items }) pick }
    ensures room { vec_capacity bytes.old ≤ vec_capacity bytes.new }
{
    match pick {
        Pick::Synced => undo.restore(bytes),
        _ => pick_over(bytes, marks, pick),
    }
}

/// Makes the bytes what a pick but `Synced` leaves where these marks stand.
fn pick_over(bytes: &mut [u8], marks: &[Mark], pick: Pick)
    requires { length marks.now ≡ length bytes.old }
    ensures { bytes.new ≡ overlaid (picked_byte pick) marks.now bytes.old }
{
    for i in 0..marks.len() {
        bytes[i] = picked_byte(pick, marks[i], bytes[i]);
    }
}

fn picked_byte(pick: Pick, mark: Mark, byte: u8) -> u8
    ensures { result ≡ picked_byte pick mark byte }
{
    match (pick, mark) {
        (Pick::Synced | Pick::Written, _) => byte,
        (Pick::Ones, Mark::Clean) => byte,
        (Pick::Ones, Mark::Front | Mark::Rest) => 1,
        (Pick::Halves, Mark::Clean | Mark::Front) => byte,
        (Pick::Halves, Mark::Rest) => 255,
    }
}

/// Makes room for so many items in all, and for four times as many where memory isn't refused: what stands on a disk
/// that grows is moved seldom then.
pub(crate) fn reserve_upto<T: Copy>(to: &mut Vec<T>, upto: usize) -> Result<(), Memory>
    ensures items { to.new.items ≡ to.old.items }
    ensures room { OnOk result (upto ≤ vec_capacity to.new) }
    ensures kept { vec_capacity to.old ≤ vec_capacity to.new }
{
    if to.capacity() < upto {
        let mut more = room_for(*to.allocator(), upto)?;
        more.extend_from_slice(to)?;
        *to = more;
    }
    Ok(())
}

/// Room for so many items, or for four times as many.
fn room_for<T>(alloc: Global, upto: usize) -> Result<Vec<T>, Memory>
    ensures items { IfOk result (λ room. room.items ≡ []) }
    ensures room { IfOk result (λ room. upto ≤ vec_capacity room) }
{
    match Vec::with_capacity(alloc, upto.saturating_mul(4)) {
        Ok(room) => Ok(room),
        Err(_) => Ok(Vec::with_capacity(alloc, upto)?),
    }
}
