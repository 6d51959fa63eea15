ghost use Rattle.std.specs.Prelude.{◌-◌, ◌^◌, ◌<◌, IfOk, OnOk};
ghost use Rattle.ficus_durable_state.specs.Saved.{FitsImage};
ghost use Rattle.ficus_commands.specs.Change.{HasFitPaths};

use crate::fault::Fault;
use crate::makes::{Make, change_of};
use ficus_commands::Change;
use ficus_durable_state::{BYTE_LIMIT, UPDATE_LIMIT};
use ficus_ids::{Members, Refusal};
use ficus_replica::Replica;
use std::alloc::Global;

/// This replica of two, which may make so many updates and write so many bytes, and has heard of nothing.
pub(crate) fn fresh(alloc: Global, me: u8, ids: u32, bytes: u32) -> Result<Replica, Fault>
    ensures { IfOk result (λ replica. FitsImage replica.saved) }
{
    if !(1..=UPDATE_LIMIT).contains(&ids) || bytes > BYTE_LIMIT {
        return Err(Fault::Limits);
    }
    let members = Members::new(2).ok_or(Fault::Members)?;
    if !members.has(me) {
        return Err(Fault::Members);
    }
    Ok(Replica::fresh(alloc, me, members, ids, bytes))
}

/// The replica makes this.
pub(crate) fn makes(alloc: Global, replica: &mut Replica, make: Make) -> Result<(), Fault>
    requires { FitsImage replica.old.saved }
    ensures { OnOk result (FitsImage replica.new.saved) }
{
    let change = change_of(alloc, make)?;
    changes(alloc, replica, &change)
}

// The replica makes this change.
fn changes(alloc: Global, replica: &mut Replica, change: &Change) -> Result<(), Fault>
    requires new { HasFitPaths change.now }
    requires fits { FitsImage replica.old.saved }
    ensures { OnOk result (FitsImage replica.new.saved) }
{
    may_save(replica)?;
    let next = replica.change(alloc, change)?;
    *replica = next.replica;
    Ok(())
}

/// The replica asks the server and takes what this holds.
pub(crate) fn hears(alloc: Global, replica: &mut Replica, server: &Replica) -> Result<(), Fault>
    requires replica { FitsImage replica.old.saved }
    requires server { FitsImage server.now.saved }
    ensures { OnOk result (FitsImage replica.new.saved) }
{
    let from = server.saved.me;
    asks(replica, from)?;
    takes(alloc, replica, from, replica.saved.generation, server)
}

// The replica asks this other one.
fn asks(replica: &mut Replica, to: u8) -> Result<(), Fault>
    requires { FitsImage replica.old.saved }
    ensures { OnOk result (FitsImage replica.new.saved) }
{
    if replica.saved.me == to || !replica.saved.members.has(to) {
        return Err(Fault::Members);
    }
    may_save(replica)?;
    *replica = replica.ask(to)?;
    Ok(())
}

// Takes what another one holds as the answer of this replica and number, once it has asked.
fn takes(
    alloc: Global,
    asking: &mut Replica,
    from: u8,
    number: u64,
    other: &Replica,
) -> Result<(), Fault>
    requires asking { FitsImage asking.old.saved }
    requires other { FitsImage other.now.saved }
    ensures { OnOk result (FitsImage asking.new.saved) }
{
    may_save(asking)?;
    let theirs = &other.saved;
    if asking.saved.members != theirs.members {
        return Err(Fault::Members);
    }
    *asking = asking.accept(alloc, from, number, &theirs.entries, &theirs.files)?;
    Ok(())
}

/// Why a replica that has made nothing and asks replica 2 doesn't take what another one holds as the answer of
/// this number.
pub(crate) fn why_not_taken(
    alloc: Global,
    number: u64,
    other: &Replica,
) -> Result<Option<Refusal>, Fault>
    requires { FitsImage other.now.saved }
{
    let mut asking = fresh(alloc, 1, 1, 0)?;
    why_not_heard(alloc, &mut asking, number, other)
}

// The same of this replica.
fn why_not_heard(
    alloc: Global,
    asking: &mut Replica,
    number: u64,
    other: &Replica,
) -> Result<Option<Refusal>, Fault>
    requires asking { FitsImage asking.old.saved }
    requires other { FitsImage other.now.saved }
{
    asks(asking, 2)?;
    why_refused(takes(alloc, asking, 2, number, other))
}

/// Why what was to be done was refused, where it was.
pub(crate) fn why_refused(done: Result<(), Fault>) -> Result<Option<Refusal>, Fault> {
    match done {
        Ok(()) => Ok(None),
        Err(Fault::Call(refusal)) => Ok(Some(refusal)),
        Err(fault) => Err(fault),
    }
}

pub(crate) fn may_save(replica: &Replica) -> Result<(), Fault>
    ensures { OnOk result (replica.now.saved.generation < 2 ^ 63 - 1) }
{
    if replica.saved.generation > 9 {
        return Err(Fault::Saves);
    }
    Ok(())
}
