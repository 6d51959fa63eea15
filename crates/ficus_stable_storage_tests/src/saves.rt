// Saves, and what the disks hold after each.
ghost use Rattle.std.specs.Prelude.{◌≡◌, ◌<◌, ◌≤◌, ◌++◌, [], IfOk, IfSome, IsTrue, OnOk, length};
ghost use Rattle.ficus_keeper.specs.Framed.{body_in, empty_head, head_size};
ghost use Rattle.ficus_keeper.specs.Pairs.{PairSame, PairWithin};
ghost use Rattle.ficus_stable_storage.specs.Leads.Holds.{Leads};
ghost use Rattle.ficus_durable_state.specs.Saved.{FitsImage};
ghost use Rattle.ficus_stable_storage.specs.Stable.{IsReady, MayFollow};

use ficus_disk::{Disk, Pair};
use ficus_durable_state::{BYTE_LIMIT, Saved, UPDATE_LIMIT};
use ficus_ids::{Members, Memory, Refusal};
use ficus_image::encode_image;
use ficus_keeper::{Keep, MakeFault, StoreFault, begin_frame};
use ficus_record::{RecordFault, decode_record};
use ficus_replica::Replica;
use ficus_stable_storage::{Recovered, Stable};
use std::alloc::Global;

/// Replica 1 of two, which has heard of nothing.
pub(crate) fn first(alloc: Global) -> Result<Replica, Refusal>
    ensures fits { IfOk result (λ replica. FitsImage replica.saved) }
    ensures first { IfOk result (λ replica. replica.saved.generation ≡ 0) }
{
    let members = Members::new(2).ok_or(Refusal::Member)?;
    Ok(Replica::fresh(alloc, 1, members, UPDATE_LIMIT, BYTE_LIMIT))
}

/// The replica after the event of the record, as the record is applied.
pub(crate) fn after(alloc: Global, was: &Replica, body: &[u8]) -> Result<Replica, Refusal>
    requires { FitsImage was.now.saved }
    ensures { IfOk result (λ next. Leads body.now was.now.saved next.saved) }
{
    match decode_record(alloc, body, was.saved.members) {
        Ok(noted) => was.apply(alloc, &noted).map_err(unfit),
        Err(fault) => Err(unfit(fault)),
    }
}

// Why a record wasn't applied, as a refusal.
fn unfit(fault: RecordFault) -> Refusal {
    match fault {
        RecordFault::Memory => Refusal::Memory,
        _ => Refusal::NoMail,
    }
}

/// Makes what the replica begins with on two empty disks.
pub(crate) fn makes<K: Keep + Drop, D: Disk>(
    alloc: Global,
    disks: &mut Pair<D>,
    replica: &Replica,
) -> Result<(), Refusal>
    requires fits { FitsImage replica.now.saved }
    requires first { replica.now.saved.generation ≡ 0 }
    requires empty_a { D.tells → D.seen disks.old.a ≡ [] }
    requires empty_b { D.tells → D.seen disks.old.b ≡ [] }
{
    match Stable::<K>::make(alloc, disks, &replica.saved) {
        Ok(()) => Ok(()),
        Err(MakeFault::Failed) => Err(Refusal::Store),
        Err(MakeFault::Memory) => Err(Refusal::Memory),
    }
}

/// What opening told, as a refusal.
pub(crate) fn told(fault: StoreFault) -> Refusal {
    match fault {
        StoreFault::Failed => Refusal::Store,
        StoreFault::NoImage => Refusal::Image,
        StoreFault::Memory => Refusal::Memory,
    }
}

/// A fuse for both disks: how many calls pass, and the pick.
#[derive(Clone, Copy)]
pub(crate) struct Stop {
    pub(crate) calls: u32,
    pub(crate) pick: u8,
}

// Arms both disks.
fn arm<D: Disk>(disks: &mut Pair<D>, stop: Option<Stop>)
    requires { IfSome stop (λ fuse. fuse.pick < 4) }
    ensures seen { D.tells → PairSame D.seen disks.old disks.new }
    ensures crash { PairWithin D.may_leave disks.old disks.new }
    ensures room_a { D.room disks.old.a ≤ D.room disks.new.a }
    ensures room_b { D.room disks.old.b ≤ D.room disks.new.b }
{
    if let Some(fuse) = stop {
        disks.a.arm(fuse.calls, fuse.pick);
        disks.b.arm(fuse.calls, fuse.pick);
    }
}

// The bytes in a frame.
fn framed(alloc: Global, bytes: &[u8]) -> Result<Vec<u8>, Memory>
    ensures { IfOk result (λ framed. framed.items ≡ empty_head ++ bytes.now) }
{
    let mut framed = Vec::new(alloc);
    begin_frame(&mut framed)?;
    framed.extend_from_slice(bytes)?;
    Ok(framed)
}

// Saves the replica after the event of the record in the frame, with both disks armed once that is prepared; whether it
// was done.
fn saves<K: Keep + Drop, D: Disk>(
    stable: &mut Stable<K>,
    disks: &mut Pair<D>,
    next: &Replica,
    framed: Vec<u8>,
    stop: Option<Stop>,
) -> Result<bool, Memory>
    requires stop { IfSome stop (λ fuse. fuse.pick < 4) }
    requires fits { FitsImage next.now.saved }
    requires follows { D.tells
        → MayFollow K.kept K.fits D.seen D.may_leave stable.old disks.old next.now.saved (body_in framed.items) }
    requires head { head_size ≤ length framed.items }
    ensures ready { D.tells → IfOk result (λ is_saved. IsTrue is_saved
        → IsReady K.kept K.fits D.seen D.may_leave stable.new disks.new next.now.saved) }
{
    stable.prepare(disks, &next.saved, framed)?;
    arm(disks, stop);
    Ok(stable.commit(disks, &next.saved).is_ok())
}

/// Saves what the replica is after the event of the record, as above, and makes it that; whether the save was done.
pub(crate) fn saves_after<K: Keep + Drop, D: Disk>(
    alloc: Global,
    stable: &mut Stable<K>,
    disks: &mut Pair<D>,
    now: &mut Replica,
    body: &[u8],
    stop: Option<Stop>,
) -> Result<bool, Refusal>
    requires stop { IfSome stop (λ fuse. fuse.pick < 4) }
    requires fits { FitsImage now.old.saved }
    requires ready { D.tells → IsReady K.kept K.fits D.seen D.may_leave stable.old disks.old now.old.saved }
    ensures fits { OnOk result (FitsImage now.new.saved) }
    ensures ready { D.tells → IfOk result (λ is_saved. IsTrue is_saved
        → IsReady K.kept K.fits D.seen D.may_leave stable.new disks.new now.new.saved) }
{
    let next = after(alloc, now, body)?;
    let is_saved = saves(stable, disks, &next, framed(alloc, body)?, stop)?;
    *now = next;
    Ok(is_saved)
}

/// Opens the disks, and saves what the replica that they hold is after the event of the record; whether it was done.
pub(crate) fn saves_next<K: Keep + Drop, D: Disk>(
    alloc: Global,
    disks: &mut Pair<D>,
    body: &[u8],
    stop: Option<Stop>,
) -> Result<bool, Refusal>
    requires { IfSome stop (λ fuse. fuse.pick < 4) }
{
    match Stable::<K>::open(alloc, disks) {
        Ok(Recovered { mut stable, saved }) => {
            let mut now = Replica::open(saved);
            saves_after(alloc, &mut stable, disks, &mut now, body, stop)
        }
        Err(fault) => Err(told(fault)),
    }
}

// Whether both are saved by the same image.
fn is_same(alloc: Global, one: &Saved, other: &Saved) -> Result<bool, Refusal>
    requires one { FitsImage one.now }
    requires other { FitsImage other.now }
{
    Ok(encode_image(alloc, one)? == encode_image(alloc, other)?)
}

// Whether what was opened is what the replica saves.
fn is_found<K: Keep + Drop>(
    alloc: Global,
    opened: Result<Recovered<K>, StoreFault>,
    replica: &Replica,
) -> Result<bool, Refusal>
    requires opened { IfOk opened (λ found. FitsImage found.saved) }
    requires replica { FitsImage replica.now.saved }
{
    match opened {
        Ok(found) => is_same(alloc, &found.saved, &replica.saved),
        Err(fault) => Err(told(fault)),
    }
}

/// Whether the disks hold what the replica saves, as they are read.
pub(crate) fn shows<K: Keep + Drop, D: Disk>(
    alloc: Global,
    disks: &mut Pair<D>,
    replica: &Replica,
) -> Result<bool, Refusal>
    requires { FitsImage replica.now.saved }
    ensures same { D.tells → PairSame D.seen disks.old disks.new }
    ensures crash { PairWithin D.may_leave disks.old disks.new }
{
    is_found(alloc, Stable::<K>::open(alloc, disks), replica)
}

/// Whether the disks, opened anew, hold what the replica saves.
pub(crate) fn holds<K: Keep + Drop, D: Disk>(
    alloc: Global,
    disks: &mut Pair<D>,
    replica: &Replica,
) -> Result<bool, Refusal>
    requires { FitsImage replica.now.saved }
{
    is_found(alloc, Stable::<K>::reopen(alloc, disks), replica)
}
