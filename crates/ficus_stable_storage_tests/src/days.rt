// Many saves one after the other.
ghost use Rattle.std.specs.Prelude.{◌≡◌, ◌≤◌, [], length, OnOk};
ghost use Rattle.ficus_durable_state.specs.Saved.{FitsImage};
ghost use Rattle.ficus_stable_storage.specs.Stable.{IsReady};

use crate::records::{DAY, changes, copies};
use crate::saves::{first, holds, makes, saves_after, shows, told};
use ficus_disk::{Disk, MemDisk, Pair, TraceDisk, fresh_pair};
use ficus_ids::Refusal;
use ficus_journal::Journal;
use ficus_keeper::Keep;
use ficus_replica::Replica;
use ficus_stable_storage::{Recovered, Stable};
use ficus_two_slots::TwoSlot;
use std::alloc::Global;
use std::test::Fail;

// The event of the record is saved, and found where the disks are read then.
fn saves_found<K: Keep + Drop, D: Disk>(
    alloc: Global,
    stable: &mut Stable<K>,
    disks: &mut Pair<D>,
    now: &mut Replica,
    body: &[u8],
) -> Result<(), Refusal>
    requires fits { FitsImage now.old.saved }
    requires ready { D.tells → IsReady K.kept K.fits D.seen D.may_leave stable.old disks.old now.old.saved }
    ensures fits { OnOk result (FitsImage now.new.saved) }
    ensures ready { D.tells
        → OnOk result (IsReady K.kept K.fits D.seen D.may_leave stable.new disks.new now.new.saved) }
{
    if !saves_after(alloc, stable, disks, now, body, None)? {
        return Err(Refusal::Store);
    }
    if shows::<K, D>(alloc, disks, now)? {
        Ok(())
    } else {
        Err(Refusal::Image)
    }
}

// The same of each record in turn.
fn saves_all<K: Keep + Drop, D: Disk>(
    alloc: Global,
    stable: &mut Stable<K>,
    disks: &mut Pair<D>,
    now: &mut Replica,
    bodies: &[Vec<u8>],
) -> Result<(), Refusal>
    requires fits { FitsImage now.old.saved }
    requires ready { D.tells → IsReady K.kept K.fits D.seen D.may_leave stable.old disks.old now.old.saved }
    ensures { OnOk result (FitsImage now.new.saved) }
{
    for body in bodies {
        saves_found(alloc, stable, disks, now, body)?;
    }
    Ok(())
}

/// Opens the disks, and saves the event of each record, which is found where the disks are read then. Fills in the
/// replica after them.
pub(crate) fn plays<K: Keep + Drop, D: Disk>(
    alloc: Global,
    disks: &mut Pair<D>,
    now: &mut Replica,
    bodies: &[Vec<u8>],
) -> Result<(), Refusal>
    ensures { OnOk result (FitsImage now.new.saved) }
{
    match Stable::<K>::open(alloc, disks) {
        Ok(Recovered { mut stable, saved }) => {
            *now = Replica::open(saved);
            saves_all(alloc, &mut stable, disks, now, bodies)
        }
        Err(fault) => Err(told(fault)),
    }
}

// Whether the events, each saved on disks that were found empty and found where they are read then, are there when the
// disks are opened again.
fn keeps<K: Keep + Drop, D: Disk>(
    alloc: Global,
    disks: &mut Pair<D>,
    now: &mut Replica,
    bodies: &[Vec<u8>],
) -> Result<bool, Refusal>
    requires empty_a { D.tells → D.seen disks.old.a ≡ [] }
    requires empty_b { D.tells → D.seen disks.old.b ≡ [] }
    requires fits { FitsImage now.old.saved }
    requires first { now.old.saved.generation ≡ 0 }
    ensures { OnOk result (FitsImage now.new.saved) }
{
    makes::<K, D>(alloc, disks, now)?;
    if !shows::<K, D>(alloc, disks, now)? {
        return Ok(false);
    }
    plays::<K, D>(alloc, disks, now, bodies)?;
    holds::<K, D>(alloc, disks, now)
}

// The same of a replica that has heard of nothing.
fn keeps_from_first<K: Keep + Drop, D: Disk>(
    alloc: Global,
    disks: &mut Pair<D>,
    bodies: &[Vec<u8>],
) -> Result<bool, Refusal>
    requires empty_a { D.tells → D.seen disks.old.a ≡ [] }
    requires empty_b { D.tells → D.seen disks.old.b ≡ [] }
{
    let mut now = first(alloc)?;
    keeps::<K, D>(alloc, disks, &mut now, bodies)
}

// The same on disks that record their calls.
fn keeps_traced<K: Keep + Drop>(alloc: Global, bodies: &[Vec<u8>]) -> Result<bool, Refusal> {
    let mut disks = Pair {
        a: TraceDisk::new(alloc, 128, 8192)?,
        b: TraceDisk::new(alloc, 128, 8192)?,
    };
    keeps_from_first::<K, TraceDisk>(alloc, &mut disks, bodies)
}

// The same of the day's records.
fn keeps_day<K: Keep + Drop>(alloc: Global) -> Result<bool, Refusal> {
    let bodies = copies(alloc, DAY)?;
    keeps_traced::<K>(alloc, &bodies)
}

#[test]
fn each_save_is_found(rt: HostRuntime) -> Result<(), Fail> {
    assert!(rt; keeps_day::<Journal>(rt.alloc())?);
    assert!(rt; keeps_day::<TwoSlot>(rt.alloc())?);
    Ok(())
}

// Whether so many changes are kept in memory.
fn keeps_changes(alloc: Global, count: u8) -> Result<bool, Refusal> {
    let bodies = changes(alloc, count)?;
    keeps_from_first::<Journal, MemDisk>(alloc, &mut fresh_pair(alloc), &bodies)
}

#[test]
fn a_hundred_and_forty_updates_are_found(rt: HostRuntime) -> Result<(), Fail> {
    assert!(rt; keeps_changes(rt.alloc(), 140)?);
    Ok(())
}

// How many records stand behind the image.
fn records<D: Disk>(alloc: Global, disks: &mut Pair<D>) -> Result<usize, Refusal> {
    let (_keeper, opened) = Journal::open(alloc, disks).map_err(told)?;
    Ok(opened.records.items().len())
}

// Whether a volume opens with no record, and holds what the replica saves.
fn shows_no_record<D: Disk>(
    alloc: Global,
    disks: &mut Pair<D>,
    now: &Replica,
) -> Result<bool, Refusal>
    requires { FitsImage now.now.saved }
{
    if records(alloc, disks)? != 0 {
        return Ok(false);
    }
    shows::<Journal, D>(alloc, disks, now)
}

// Whether it does, and goes on with these events as if nothing had been saved.
fn goes_on_with<D: Disk>(
    alloc: Global,
    disks: &mut Pair<D>,
    now: &mut Replica,
    bodies: &[Vec<u8>],
) -> Result<bool, Refusal>
    requires { FitsImage now.old.saved }
{
    if !shows_no_record(alloc, disks, now)? {
        return Ok(false);
    }
    plays::<Journal, D>(alloc, disks, now, bodies)?;
    holds::<Journal, D>(alloc, disks, now)
}

// Whether a volume to which two slots kept the first so many events does that with the others.
fn goes_on<D: Disk>(
    alloc: Global,
    disks: &mut Pair<D>,
    now: &mut Replica,
    bodies: &[Vec<u8>],
    kept: usize,
) -> Result<bool, Refusal>
    requires empty_a { D.tells → D.seen disks.old.a ≡ [] }
    requires empty_b { D.tells → D.seen disks.old.b ≡ [] }
    requires fits { FitsImage now.old.saved }
    requires first { now.old.saved.generation ≡ 0 }
    requires kept { kept ≤ length bodies.now }
{
    if !keeps::<TwoSlot, D>(alloc, disks, now, &bodies[..kept])? {
        return Ok(false);
    }
    goes_on_with(alloc, disks, now, &bodies[kept..])
}

// The same of seventy events of a replica that has heard of nothing.
fn goes_on_from_first<D: Disk>(
    alloc: Global,
    disks: &mut Pair<D>,
    bodies: &[Vec<u8>],
    kept: usize,
) -> Result<bool, Refusal>
    requires empty_a { D.tells → D.seen disks.old.a ≡ [] }
    requires empty_b { D.tells → D.seen disks.old.b ≡ [] }
{
    if bodies.len() != 70 || kept > bodies.len() {
        return Ok(false);
    }
    let mut now = first(alloc)?;
    goes_on(alloc, disks, &mut now, bodies, kept)
}

// The same of seventy changes in memory.
fn seventy_go_on(alloc: Global, kept: usize) -> Result<bool, Refusal> {
    let bodies = changes(alloc, 70)?;
    goes_on_from_first(alloc, &mut fresh_pair(alloc), &bodies, kept)
}

#[test]
fn what_two_slots_left_goes_on_with_records(rt: HostRuntime) -> Result<(), Fail> {
    // The kept image lies on either disk.
    for kept in 4..=5 {
        let goes_on = seventy_go_on(rt.alloc(), kept)?;
        assert!(rt; goes_on, "behind {kept}");
    }
    Ok(())
}
