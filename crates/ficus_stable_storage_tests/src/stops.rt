// Saves that a fuse stops, and what is found once the disks are opened again.
ghost use Rattle.std.specs.Prelude.{◌≡◌, ◌<◌, [], IsTrue, OnOk};
ghost use Rattle.ficus_durable_state.specs.Saved.{FitsImage};

use crate::days::plays;
use crate::kept::{disk_of, log_of};
use crate::records::{MAKE, changes};
use crate::saves::{Stop, after, first, holds, makes, saves_next, told};
use ficus_disk::{Disk, MemDisk, Pair, fresh_pair};
use ficus_ids::Refusal;
use ficus_journal::Journal;
use ficus_keeper::Keep;
use ficus_replica::Replica;
use ficus_slot::read_all;
use ficus_two_slots::TwoSlot;
use std::alloc::Global;
use std::test::Fail;

/// How many calls pass, and whether each pick then finds what was saved.
type Row = (u32, [bool; 4]);

/// How many calls a save takes, and its rows.
type Table = (u32, &'static [Row]);

/// That of an image.
const IMAGE: Table = (
    6,
    &[
        (0, [false, false, false, false]),
        (1, [false, false, false, false]),
        (2, [false, false, false, false]),
        (3, [false, false, false, false]),
        (4, [false, true, true, false]),
        (5, [false, true, true, false]),
        (6, [true, true, true, true]),
        (7, [true, true, true, true]),
    ],
);

/// That of a record.
const RECORD: Table = (
    4,
    &[
        (0, [false, false, false, false]),
        (1, [false, false, false, false]),
        (2, [false, true, true, false]),
        (3, [false, true, true, false]),
        (4, [true, true, true, true]),
        (5, [true, true, true, true]),
    ],
);

// Saves so many changes.
fn plays_changes<K: Keep + Drop>(
    alloc: Global,
    disks: &mut Pair<MemDisk>,
    was: &mut Replica,
    count: u8,
) -> Result<(), Refusal>
    ensures { OnOk result (FitsImage was.new.saved) }
{
    let bodies = changes(alloc, count)?;
    plays::<K, MemDisk>(alloc, disks, was, &bodies)
}

// Two disks that hold what these do.
fn copied(alloc: Global, disks: &mut Pair<MemDisk>) -> Result<Pair<MemDisk>, Refusal> {
    let a = copy_of(alloc, &mut disks.a)?;
    let b = copy_of(alloc, &mut disks.b)?;
    Ok(Pair { a, b })
}

fn copy_of(alloc: Global, disk: &mut MemDisk) -> Result<MemDisk, Refusal> {
    let bytes = read_all(alloc, disk).map_err(told)?;
    disk_of(alloc, &bytes)
}

// Whether with such a fuse the save is done or not, as said, and then this is found.
fn leaves<K: Keep + Drop>(
    alloc: Global,
    disks: &mut Pair<MemDisk>,
    stop: Stop,
    is_done: bool,
    found: &Replica,
) -> Result<bool, Refusal>
    requires pick { stop.pick < 4 }
    requires found { FitsImage found.now.saved }
{
    let is_saved = saves_next::<K, MemDisk>(alloc, disks, MAKE, Some(stop))?;
    Ok(is_saved == is_done && holds::<K, MemDisk>(alloc, disks, found)?)
}

// The same of disks that hold what these do, of a save that takes so many calls, and is done where these pass.
fn leaves_copied<K: Keep + Drop>(
    alloc: Global,
    disks: &mut Pair<MemDisk>,
    calls: u32,
    stop: Stop,
    found: &Replica,
) -> Result<bool, Refusal>
    requires pick { stop.pick < 4 }
    requires found { FitsImage found.now.saved }
{
    let mut copy = copied(alloc, disks)?;
    leaves::<K>(alloc, &mut copy, stop, stop.calls >= calls, found)
}

// The first stop that leaves something else than the table says of a save, behind so many saves.
fn wrong<K: Keep + Drop>(alloc: Global, count: u8, table: Table) -> Result<Option<Stop>, Refusal> {
    wrong_on::<K>(alloc, &mut fresh_pair(alloc), true, count, table)
}

// The same of these disks, which are empty, or else hold a volume.
fn wrong_on<K: Keep + Drop>(
    alloc: Global,
    disks: &mut Pair<MemDisk>,
    is_empty: bool,
    count: u8,
    table: Table,
) -> Result<Option<Stop>, Refusal>
    requires empty_a { IsTrue is_empty → ⟦<MemDisk as Disk>⟧.seen disks.old.a ≡ [] }
    requires empty_b { IsTrue is_empty → ⟦<MemDisk as Disk>⟧.seen disks.old.b ≡ [] }
{
    let mut was = first(alloc)?;
    if is_empty {
        wrong_made::<K>(alloc, disks, &mut was, count, table)
    } else {
        wrong_behind::<K>(alloc, disks, &mut was, count, table)
    }
}

// The same of them once what the replica begins with is made there.
fn wrong_made<K: Keep + Drop>(
    alloc: Global,
    disks: &mut Pair<MemDisk>,
    was: &mut Replica,
    count: u8,
    table: Table,
) -> Result<Option<Stop>, Refusal>
    requires empty_a { ⟦<MemDisk as Disk>⟧.seen disks.old.a ≡ [] }
    requires empty_b { ⟦<MemDisk as Disk>⟧.seen disks.old.b ≡ [] }
    requires fits { FitsImage was.old.saved }
    requires first { was.old.saved.generation ≡ 0 }
{
    makes::<K, MemDisk>(alloc, disks, was)?;
    wrong_behind::<K>(alloc, disks, was, count, table)
}

// The same of disks that hold a volume. Fills in the replica after the saves.
fn wrong_behind<K: Keep + Drop>(
    alloc: Global,
    disks: &mut Pair<MemDisk>,
    was: &mut Replica,
    count: u8,
    table: Table,
) -> Result<Option<Stop>, Refusal> {
    plays_changes::<K>(alloc, disks, was, count)?;
    wrong_after::<K>(alloc, disks, was, table)
}

// The same of what the disks hold, which is what the replica saves.
fn wrong_after<K: Keep + Drop>(
    alloc: Global,
    disks: &mut Pair<MemDisk>,
    was: &Replica,
    table: Table,
) -> Result<Option<Stop>, Refusal>
    requires { FitsImage was.now.saved }
{
    let next = after(alloc, was, MAKE)?;
    first_wrong::<K>(alloc, disks, was, &next, table)
}

fn first_wrong<K: Keep + Drop>(
    alloc: Global,
    disks: &mut Pair<MemDisk>,
    was: &Replica,
    next: &Replica,
    table: Table,
) -> Result<Option<Stop>, Refusal>
    requires was { FitsImage was.now.saved }
    requires next { FitsImage next.now.saved }
{
    let (calls, rows) = table;
    for (passed, found) in rows {
        for pick in 0..4_u8 {
            let stop = Stop {
                calls: *passed,
                pick,
            };
            let found = if found[pick as usize] { next } else { was };
            if !leaves_copied::<K>(alloc, disks, calls, stop, found)? {
                return Ok(Some(stop));
            }
        }
    }
    Ok(None)
}

// The same behind so many saves of a volume whose image is of version 1, where the next save is an image of version 2.
fn wrong_behind_version_1(alloc: Global, count: u8) -> Result<Option<Stop>, Refusal> {
    let mut disks = log_of(alloc, &[])?;
    wrong_on::<Journal>(alloc, &mut disks, false, count, IMAGE)
}

// That of each volume.
fn wrongs(alloc: Global) -> [Result<Option<Stop>, Refusal>; 7] {
    [
        wrong::<TwoSlot>(alloc, 0, IMAGE),
        wrong::<TwoSlot>(alloc, 1, IMAGE),
        wrong::<Journal>(alloc, 0, RECORD),
        wrong::<Journal>(alloc, 63, RECORD),
        wrong::<Journal>(alloc, 64, IMAGE),
        wrong::<Journal>(alloc, 65, RECORD),
        wrong_behind_version_1(alloc, 64),
    ]
}

#[test]
fn a_stopped_save_is_found_by_its_pick(rt: HostRuntime) -> Result<(), Fail> {
    for (place, wrong) in wrongs(rt.alloc()).iter().enumerate() {
        if let Some(Stop { calls, pick }) = (*wrong)? {
            assert!(rt; false, "volume {place}: {calls} calls, pick {pick}");
        }
    }
    Ok(())
}
