ghost use Rattle.std.specs.Prelude.{◌≡◌, ◌↔◌, ℕ, [], None, length, IfErr, IfOk, IsErrOf, IsTrue, OnOk};
ghost use Rattle.ficus_ids.specs.Members.{IsMember};
ghost use Rattle.ficus_keeper.specs.Kept.{found_in};
ghost use Rattle.ficus_keeper.specs.Pairs.{PairSame};
ghost use Rattle.ficus_disk.specs.Pair.{PairRose};
ghost use Rattle.ficus_member.specs.Making.{IsEmptyAt, IsEmptyBeside, LeavesNote, LooksBeside, LooksForMember, MakesBeside, MakesMember};
ghost use Rattle.ficus_member.specs.TagFile.{FileAsked, FileRests};
ghost use Rattle.ficus_note.specs.Noted.{HoldsNote};
ghost use Rattle.ficus_opening.specs.Check.Judged.{IsEmptyPair};
ghost use Rattle.ficus_opening.specs.Opening.{DisksLooked, IsStoreFault, IsSynced};
ghost use Rattle.ficus_top.specs.Making.{FitsSize};
ghost use Rattle.ficus_two_slots.specs.Slots.{kept_in};

use crate::Beside;
use crate::tag_file::write_tag;
use ficus_disk::{Disk, Pair};
use ficus_faults::Failed;
use ficus_keeper::MakeFault;
use ficus_note::Note;
use ficus_opening::{WorldFault, look_at, make_volume};
use ficus_tag::Tag;
use ficus_top::summary::Keeper;
use ficus_words::Size;
use std::alloc::Global;

/// Makes a member of a fresh volume: the file of its volume's tag, the note that no ask is open, and then what it saves
/// before anything has happened.
///
/// `Store` comes only where a disk of the named member failed, or what lies beside; `Occupied` exactly where something
/// is there of the member, and then nothing is written, or where the disks that stand in for another hold something.
pub(crate) fn init<D: Disk, N: Disk + Drop>(
    alloc: Global,
    size: Size,
    me: u8,
    tag: Tag,
    disks: &mut Vec<Pair<D>>,
    beside: &mut Beside<N>,
) -> Result<(), WorldFault>
    requires size { FitsSize size }
    requires me { IsMember size.members me }
    requires pairs { length disks.old.items ≡ 8 }
    ensures { MakesMember D.Disk N.Disk size me tag result disks.old.items disks.new.items beside.old beside.new }
{
    look_for_member(disks, beside, me)?;
    make_beside(alloc, tag, beside, me)?;
    make_volume::<Keeper, D>(alloc, disks, size.members, size.ids, size.bytes)
}

// Looks whether nothing is there of the member.
fn look_for_member<D: Disk, N: Disk + Drop>(
    disks: &mut Vec<Pair<D>>,
    beside: &mut Beside<N>,
    me: u8,
) -> Result<(), WorldFault>
    requires me { IsMember 8 me }
    requires pairs { length disks.old.items ≡ 8 }
    ensures { LooksForMember D.Disk N.Disk me result disks.old.items disks.new.items beside.old beside.new }
{
    let is_own_empty = look_at_own(disks, me)?;
    let is_beside_empty = look_beside(beside, me)?;
    free_or_occupied(both(is_own_empty, is_beside_empty), me)
}

// Whether both are so.
fn both(one: bool, other: bool) -> bool
    ensures { IsTrue result ↔ (IsTrue one × IsTrue other) }
{
    one && other
}

// The fault of what isn't free.
fn free_or_occupied(is_free: bool, me: u8) -> Result<(), WorldFault>
    ensures free { OnOk result (IsTrue is_free) }
    ensures occupied { IfErr result (λ fault. (fault ≡ WorldFault.Occupied me) × (IsTrue is_free → ⊥)) }
{
    if is_free {
        Ok(())
    } else {
        Err(WorldFault::Occupied(me))
    }
}

// Whether the member's own disks hold nothing.
fn look_at_own<D: Disk>(disks: &mut Vec<Pair<D>>, me: u8) -> Result<bool, WorldFault>
    requires me { IsMember 8 me }
    requires pairs { length disks.old.items ≡ 8 }
    ensures empty { D.tells → IfOk result (λ is. IsTrue is ↔ IsEmptyAt D.seen disks.old.items me) }
    ensures kinds { IfErr result (λ fault. fault ≡ WorldFault.Store me) }
    ensures looked { DisksLooked D.Disk result disks.old.items disks.new.items }
{
    let index = usize::from(me);
    look_at(&mut disks[index - 1], me)
}

// Whether nothing lies beside the member's own disks.
fn look_beside<N: Disk + Drop>(beside: &mut Beside<N>, me: u8) -> Result<bool, WorldFault>
    ensures { LooksBeside N.Disk me result beside.old beside.new }
{
    let are_slots_empty = look_at(&mut beside.slots, me)?;
    let is_volume_empty = is_empty(&mut beside.volume, me)?;
    Ok(both(are_slots_empty, is_volume_empty))
}

// Whether the file holds nothing.
fn is_empty<N: Disk>(file: &mut N, me: u8) -> Result<bool, WorldFault>
    ensures empty { N.tells → IfOk result (λ is. IsTrue is ↔ N.seen file.old ≡ []) }
    ensures kinds { IfErr result (λ fault. fault ≡ WorldFault.Store me) }
    ensures rests { FileRests N.Disk file.old file.new }
    ensures asked { FileAsked N.Disk me result file.old file.new }
{
    match file.size() {
        Ok(size) => Ok(size == 0),
        Err(Failed) => Err(WorldFault::Store(me)),
    }
}

// Writes the tag, and then notes that no ask is open.
fn make_beside<N: Disk + Drop>(
    alloc: Global,
    tag: Tag,
    beside: &mut Beside<N>,
    me: u8,
) -> Result<(), WorldFault>
    requires empty { N.tells → IsEmptyBeside N.Disk beside.old }
    ensures { MakesBeside N.Disk me tag result beside.old beside.new }
{
    write_tag(&mut beside.volume, tag, me)?;
    make_note(alloc, &mut beside.slots, me)
}

// Notes that no ask is open.
fn make_note<N: Disk>(alloc: Global, slots: &mut Pair<N>, me: u8) -> Result<(), WorldFault>
    requires empty { N.tells → IsEmptyPair N.seen slots.old }
    ensures noted { N.tells → OnOk result (HoldsNote (found_in kept_in N.seen slots.new) None) }
    ensures durable { N.tells → IsSynced N.seen N.may_leave slots.old → OnOk result (LeavesNote N.Disk None slots.new) }
    ensures kinds { IfErr result IsStoreFault }
    ensures failed { (r : ℕ) → IsErrOf result (WorldFault.Store r)
        → (r ≡ me) × PairRose N.faults 1 slots.old slots.new }
    ensures spared { IsErrOf result WorldFault.Memory → PairSame N.faults slots.old slots.new }
    ensures steady { OnOk result (PairSame N.faults slots.old slots.new) }
{
    match Note::make(alloc, slots) {
        Ok(()) => Ok(()),
        Err(MakeFault::Failed) => Err(WorldFault::Store(me)),
        Err(MakeFault::Memory) => Err(WorldFault::Memory),
    }
}
