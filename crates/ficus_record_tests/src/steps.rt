// What two replicas do, with the record of each step.
ghost use Rattle.std.specs.Prelude.{◌≡◌, ◌-◌, ◌^◌, ◌<◌, All, IfOk, OnOk};
ghost use Rattle.ficus_commands.specs.Change.{HasFitPaths};
ghost use Rattle.ficus_record.specs.Record.{FitsOp, FitsRecord};
ghost use Rattle.ficus_durable_state.specs.Saved.{FitsImage};
ghost use Rattle.ficus_script.specs.Command.{IsCommand};

use ficus_commands::Change;
use ficus_durable_state::{BYTE_LIMIT, UPDATE_LIMIT};
use ficus_ids::{Listed, Members, Refusal};
use ficus_record::{Record, RecordFault, decode_record, encode_record, put_change};
use ficus_replica::{Next, Replica};
use ficus_script::{Command, read_script};
use std::alloc::Global;

/// A replica of two that has heard of nothing, and may make so many updates and write so many bytes.
pub(crate) fn fresh(alloc: Global, me: u8, ids: u32, bytes: u32) -> Result<Replica, Refusal>
    ensures { IfOk result (λ replica. FitsImage replica.saved) }
{
    let members = Members::new(2).ok_or(Refusal::Member)?;
    if !members.has(me) || !(1..=UPDATE_LIMIT).contains(&ids) || bytes > BYTE_LIMIT {
        return Err(Refusal::Member);
    }
    Ok(Replica::fresh(alloc, me, members, ids, bytes))
}

/// Has the replicas do what the script says, and applies the record of each step to what was before it too.
pub(crate) fn plays(
    alloc: Global,
    one: &mut Replica,
    two: &mut Replica,
    script: &str,
) -> Result<(), Refusal>
    requires one { FitsImage one.old.saved }
    requires two { FitsImage two.old.saved }
    ensures { OnOk result (FitsImage one.new.saved) }
{
    match read_script(alloc, script.as_bytes()) {
        Ok(commands) => does_all(alloc, one, two, &commands),
        Err(_) => Err(Refusal::BadMessage),
    }
}

// The commands, one after the other.
fn does_all(
    alloc: Global,
    one: &mut Replica,
    two: &mut Replica,
    commands: &[Command],
) -> Result<(), Refusal>
    requires one { FitsImage one.old.saved }
    requires two { FitsImage two.old.saved }
    requires commands { All IsCommand commands.now }
    ensures { OnOk result (FitsImage one.new.saved) }
{
    for command in commands {
        does(alloc, one, two, command)?;
    }
    Ok(())
}

fn does(
    alloc: Global,
    one: &mut Replica,
    two: &mut Replica,
    command: &Command,
) -> Result<(), Refusal>
    requires one { FitsImage one.old.saved }
    requires two { FitsImage two.old.saved }
    requires command { IsCommand command.now }
    ensures one { OnOk result (FitsImage one.new.saved) }
    ensures two { OnOk result (FitsImage two.new.saved) }
{
    match command {
        Command::Change { by: 1, change } => changes(alloc, one, change),
        Command::Change { by: 2, change } => changes(alloc, two, change),
        Command::Pull { by: 1, to: 2 } => pulls(alloc, one, two),
        Command::Pull { by: 2, to: 1 } => pulls(alloc, two, one),
        Command::Collect { by: 1 } => collects(alloc, one),
        _ => Err(Refusal::BadMessage),
    }
}

fn changes(alloc: Global, replica: &mut Replica, change: &Change) -> Result<(), Refusal>
    requires fits { FitsImage replica.old.saved }
    requires paths { HasFitPaths change.now }
    ensures { OnOk result (FitsImage replica.new.saved) }
{
    may_save(replica)?;
    match replica.change(alloc, change) {
        Ok(next) => {
            let is_applied = applies_change(alloc, replica, &next);
            *replica = next.replica;
            is_applied
        }
        Err(refusal) => Err(refusal),
    }
}

// Asks the other and takes what it holds.
fn pulls(alloc: Global, replica: &mut Replica, other: &Replica) -> Result<(), Refusal>
    requires fits { FitsImage replica.old.saved }
    requires other { FitsImage other.now.saved }
    ensures { OnOk result (FitsImage replica.new.saved) }
{
    asks(alloc, replica, other.saved.me)?;
    takes(alloc, replica, other)
}

fn asks(alloc: Global, replica: &mut Replica, to: u8) -> Result<(), Refusal>
    requires { FitsImage replica.old.saved }
    ensures { OnOk result (FitsImage replica.new.saved) }
{
    if replica.saved.me == to || !replica.saved.members.has(to) {
        return Err(Refusal::Member);
    }
    may_save(replica)?;
    let asking = replica.ask(to)?;
    let is_applied = applies(alloc, replica, &Record::Ask);
    *replica = asking;
    is_applied
}

// Takes what the other holds, once it has asked.
fn takes(alloc: Global, asking: &mut Replica, other: &Replica) -> Result<(), Refusal>
    requires fits { FitsImage asking.old.saved }
    requires other { FitsImage other.now.saved }
    ensures { OnOk result (FitsImage asking.new.saved) }
{
    if asking.saved.members != other.saved.members {
        return Err(Refusal::Member);
    }
    may_save(asking)?;
    let (entries, files) = other.tables();
    let number = asking.saved.generation;
    let taken = asking.accept(alloc, other.saved.me, number, entries, files)?;
    let is_applied = applies_tables(alloc, asking, other);
    *asking = taken;
    is_applied
}

fn collects(alloc: Global, replica: &mut Replica) -> Result<(), Refusal>
    requires { FitsImage replica.old.saved }
    ensures { OnOk result (FitsImage replica.new.saved) }
{
    may_save(replica)?;
    let collected = replica.collect(alloc)?;
    let is_applied = applies(alloc, replica, &Record::Collect);
    *replica = collected.replica;
    is_applied
}

// Applies the record of the update to the replica.
fn applies_change(alloc: Global, replica: &Replica, next: &Next) -> Result<(), Refusal>
    requires fits { FitsImage replica.now.saved }
    requires op { FitsOp next.now.op }
{
    let mut bytes = Vec::new(alloc);
    put_change(&mut bytes, &next.op)?;
    applies_bytes(alloc, replica, &bytes)
}

// That of the taking of what the other holds.
fn applies_tables(alloc: Global, replica: &Replica, other: &Replica) -> Result<(), Refusal>
    requires fits { FitsImage replica.now.saved }
    requires other { FitsImage other.now.saved }
    requires members { replica.now.saved.members ≡ other.now.saved.members }
{
    let (entries, files) = other.tables();
    let noted = Record::Accept {
        entries: Listed::of(entries.rows()?),
        files: Listed::of(files.rows()?),
    };
    applies(alloc, replica, &noted)
}

fn applies(alloc: Global, replica: &Replica, noted: &Record) -> Result<(), Refusal>
    requires fits { FitsImage replica.now.saved }
    requires spelled { FitsRecord replica.now.saved.members noted.now }
{
    let bytes = encode_record(alloc, noted, replica.saved.members)?;
    applies_bytes(alloc, replica, &bytes)
}

fn applies_bytes(alloc: Global, replica: &Replica, bytes: &[u8]) -> Result<(), Refusal>
    requires { FitsImage replica.now.saved }
{
    match why_not_applied(alloc, replica, bytes) {
        None => Ok(()),
        Some(RecordFault::Memory) => Err(Refusal::Memory),
        Some(_) => Err(Refusal::BadMessage),
    }
}

/// Why the bytes make nothing of the replica, where they don't.
pub(crate) fn why_not_applied(alloc: Global, replica: &Replica, bytes: &[u8]) -> Option<RecordFault>
    requires { FitsImage replica.now.saved }
{
    match decode_record(alloc, bytes, replica.saved.members) {
        Ok(noted) => replica.apply(alloc, &noted).err(),
        Err(fault) => Some(fault),
    }
}

// A test saves less often than that.
fn may_save(replica: &Replica) -> Result<(), Refusal>
    ensures { OnOk result (replica.now.saved.generation < 2 ^ 63 - 1) }
{
    if replica.saved.generation > 99 {
        return Err(Refusal::Spent);
    }
    Ok(())
}
