// A volume that is made, saved to and opened anew over disks one call of which fails.
ghost use Rattle.std.specs.Prelude.{◌≡◌, [], IfOk};
ghost use Rattle.ficus_durable_state.specs.Saved.{FitsImage};

use crate::records::MAKE;
use crate::saves::{after, first, holds, makes, saves_next};
use ficus_disk::{Disk, FailDisk, Pair};
use ficus_ids::{Memory, Refusal};
use ficus_journal::Journal;
use ficus_keeper::Keep;
use ficus_replica::Replica;
use ficus_two_slots::TwoSlot;
use std::alloc::Global;
use std::test::Fail;

/// What failed.
#[derive(Clone, Copy, PartialEq, Eq)]
enum Step {
    Make,
    Open,
    Commit,
    Reopen,
    Nothing,
}

// Makes, saves the event of the record, and opens anew, up to what fails.
fn failing_step<K: Keep + Drop, D: Disk>(
    alloc: Global,
    disks: &mut Pair<D>,
    fresh: &Replica,
    saved: &Replica,
) -> Result<Step, Refusal>
    requires fits { FitsImage fresh.now.saved }
    requires first { fresh.now.saved.generation ≡ 0 }
    requires saved { FitsImage saved.now.saved }
    requires empty_a { D.tells → D.seen disks.old.a ≡ [] }
    requires empty_b { D.tells → D.seen disks.old.b ≡ [] }
{
    match makes::<K, D>(alloc, disks, fresh) {
        Err(Refusal::Store) => return Ok(Step::Make),
        made => made?,
    }
    match saves_next::<K, D>(alloc, disks, MAKE, None) {
        Err(Refusal::Store) => return Ok(Step::Open),
        Ok(false) => return Ok(Step::Commit),
        Ok(true) => {}
        Err(fault) => return Err(fault),
    }
    match holds::<K, D>(alloc, disks, saved) {
        Err(Refusal::Store) => Ok(Step::Reopen),
        Ok(true) => Ok(Step::Nothing),
        Ok(false) => Err(Refusal::Image),
        Err(fault) => Err(fault),
    }
}

// Whether the disks hold what they may once this failed.
fn holds_after<K: Keep + Drop, D: Disk>(
    alloc: Global,
    disks: &mut Pair<D>,
    step: Step,
    fresh: &Replica,
    saved: &Replica,
) -> Result<bool, Refusal>
    requires fresh { FitsImage fresh.now.saved }
    requires saved { FitsImage saved.now.saved }
{
    match step {
        Step::Make => match holds::<K, D>(alloc, disks, fresh) {
            Err(Refusal::Image) => Ok(true),
            found => found,
        },
        Step::Open => holds::<K, D>(alloc, disks, fresh),
        Step::Commit => {
            Ok(holds::<K, D>(alloc, disks, fresh)? || holds::<K, D>(alloc, disks, saved)?)
        }
        Step::Reopen | Step::Nothing => holds::<K, D>(alloc, disks, saved),
    }
}

// Empty disks of which one fails at this call.
fn failing(alloc: Global, is_a: bool, call: u32) -> Result<Pair<FailDisk>, Memory>
    ensures a { IfOk result (λ disks. ⟦<FailDisk as Disk>⟧.seen disks.a ≡ []) }
    ensures b { IfOk result (λ disks. ⟦<FailDisk as Disk>⟧.seen disks.b ≡ []) }
{
    let calls = vec![in alloc; call]?;
    let a_fails = FailDisk::new(alloc, calls);
    let other = FailDisk::new(alloc, Vec::new(alloc));
    Ok(if is_a {
        Pair {
            a: a_fails,
            b: other,
        }
    } else {
        Pair {
            a: other,
            b: a_fails,
        }
    })
}

// Whether this fails of the day, and the disks then hold what they may.
fn fails<K: Keep + Drop, D: Disk>(
    alloc: Global,
    disks: &mut Pair<D>,
    fresh: &Replica,
    saved: &Replica,
    step: Step,
) -> Result<bool, Refusal>
    requires fresh { FitsImage fresh.now.saved }
    requires first { fresh.now.saved.generation ≡ 0 }
    requires saved { FitsImage saved.now.saved }
    requires empty_a { D.tells → D.seen disks.old.a ≡ [] }
    requires empty_b { D.tells → D.seen disks.old.b ≡ [] }
{
    Ok(
        failing_step::<K, D>(alloc, disks, fresh, saved)? == step
            && holds_after::<K, D>(alloc, disks, step, fresh, saved)?,
    )
}

// The same of empty disks of which one fails at this call.
fn fails_at<K: Keep + Drop>(
    alloc: Global,
    fresh: &Replica,
    saved: &Replica,
    is_a: bool,
    call: u32,
    step: Step,
) -> Result<bool, Refusal>
    requires fresh { FitsImage fresh.now.saved }
    requires first { fresh.now.saved.generation ≡ 0 }
    requires saved { FitsImage saved.now.saved }
{
    let mut disks = failing(alloc, is_a, call)?;
    fails::<K, FailDisk>(alloc, &mut disks, fresh, saved, step)
}

/// The calls of a disk, from one to another, and what fails with them. The last look at the disks makes four more.
type Row = (u32, u32, Step);

/// The disks `a` and `b` of two slots, of which the first save goes to `b`.
const SLOTS: [&[Row]; 2] = [
    &[
        (1, 6, Step::Make),
        (7, 9, Step::Open),
        (10, 13, Step::Reopen),
        (18, 20, Step::Nothing),
    ],
    &[
        (1, 3, Step::Open),
        (4, 9, Step::Commit),
        (10, 13, Step::Reopen),
        (18, 20, Step::Nothing),
    ],
];

/// Those of records, of which it goes to `a` in four calls.
const RECORDS: [&[Row]; 2] = [
    &[
        (1, 6, Step::Make),
        (7, 9, Step::Open),
        (10, 13, Step::Commit),
        (14, 17, Step::Reopen),
        (22, 24, Step::Nothing),
    ],
    &[
        (1, 3, Step::Open),
        (4, 7, Step::Reopen),
        (12, 14, Step::Nothing),
    ],
];

// The first call with which something else fails than the table of one of the disks says.
fn wrong<K: Keep + Drop>(
    alloc: Global,
    fresh: &Replica,
    saved: &Replica,
    is_a: bool,
    table: &[Row],
) -> Result<Option<u32>, Refusal>
    requires fresh { FitsImage fresh.now.saved }
    requires first { fresh.now.saved.generation ≡ 0 }
    requires saved { FitsImage saved.now.saved }
{
    for (first, last, step) in table {
        for call in *first..=*last {
            if !fails_at::<K>(alloc, fresh, saved, is_a, call, *step)? {
                return Ok(Some(call));
            }
        }
    }
    Ok(None)
}

/// The first wrong call of each disk of either keeper.
type Wrongs = [Result<Option<u32>, Refusal>; 4];

// The same of each disk of either keeper.
fn wrongs(alloc: Global, fresh: &Replica, saved: &Replica) -> Wrongs
    requires fresh { FitsImage fresh.now.saved }
    requires first { fresh.now.saved.generation ≡ 0 }
    requires saved { FitsImage saved.now.saved }
{
    [
        wrong::<TwoSlot>(alloc, fresh, saved, true, SLOTS[0]),
        wrong::<TwoSlot>(alloc, fresh, saved, false, SLOTS[1]),
        wrong::<Journal>(alloc, fresh, saved, true, RECORDS[0]),
        wrong::<Journal>(alloc, fresh, saved, false, RECORDS[1]),
    ]
}

// The same where the event of the record is saved behind what the replica is.
fn wrongs_behind(alloc: Global, fresh: &Replica) -> Result<Wrongs, Refusal>
    requires fits { FitsImage fresh.now.saved }
    requires first { fresh.now.saved.generation ≡ 0 }
{
    let saved = after(alloc, fresh, MAKE)?;
    Ok(wrongs(alloc, fresh, &saved))
}

// The same of a replica that has heard of nothing.
fn wrongs_from_first(alloc: Global) -> Result<Wrongs, Refusal> {
    let fresh = first(alloc)?;
    wrongs_behind(alloc, &fresh)
}

#[test]
fn a_call_that_fails_leaves_the_old_or_the_new(rt: HostRuntime) -> Result<(), Fail> {
    for (place, wrong) in wrongs_from_first(rt.alloc())?.iter().enumerate() {
        let call = (*wrong)?;
        assert!(rt; call.is_none(), "disk {place}: {call:?}");
    }
    Ok(())
}
