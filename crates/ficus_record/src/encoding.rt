ghost use Rattle.std.specs.Prelude.{◌≡◌, ◌≤◌, ◌++◌, ◌∷◌, ℕ, List, IfOk, OnErr, OnOk, length};
ghost use Rattle.ficus_ids.specs.declared.id.Id.{Id as IdValue};
ghost use Rattle.ficus_formats.specs.Format.{Keeps};
ghost use Rattle.ficus_record.specs.Record.{FitsOp, FitsRecord, accept_front, adopting, ids, linking, making, moving, making_layout, op_body, op_tag, placing, record_bytes, removing, symlinking, writing};
ghost use Rattle.ficus_record.specs.declared.record.Record.TheVariants.{Change as Changes};

use crate::Record;
use crate::fields::IdSpelling;
use ficus_codec::put_rows;
use ficus_formats::{put_id, put_long_string, put_run, put_short_string, put_u8, put_u32};
use ficus_ids::{Id, Kind, Members, Memory, Name};
use ficus_model::Op;
use std::alloc::Global;

// Appends the count of the identifiers, of which there are fewer than four bytes can count, and these.
fn put_ids(out: &mut Vec<u8>, entries: &[Id]) -> Result<(), Memory>
    requires { ids.fits entries.now }
    ensures put { OnOk result (out.new.items ≡ out.old.items ++ ids.spell entries.now) }
    ensures kept { OnErr result (Keeps out.old.items out.new.items) }
{
    put_u32(out, entries.len() as u32)?;
    put_run(&IdSpelling {}, out, entries)
}

// Appends the directory, the name and the kind of a new object.
fn put_making(out: &mut Vec<u8>, dir: Id, name: &Name, kind: Kind) -> Result<(), Memory>
    requires { making.fits (dir, (name.now, kind)) }
    ensures put { OnOk result (out.new.items ≡ out.old.items ++ making.spell (dir, (name.now, kind))) }
    ensures kept { OnErr result (Keeps out.old.items out.new.items) }
{
    put_id(out, dir)?;
    put_short_string(out, name.bytes())?;
    put_u8(out, kind as u8)
}

// Appends the directory and the name of a new entry, and what it leads to.
fn put_linking(out: &mut Vec<u8>, dir: Id, name: &Name, target: Id) -> Result<(), Memory>
    requires { linking.fits (dir, (name.now, target)) }
    ensures put { OnOk result (out.new.items ≡ out.old.items ++ linking.spell (dir, (name.now, target))) }
    ensures kept { OnErr result (Keeps out.old.items out.new.items) }
{
    put_id(out, dir)?;
    put_short_string(out, name.bytes())?;
    put_id(out, target)
}

// Appends what is removed, and its entries.
fn put_removing(out: &mut Vec<u8>, target: Id, entries: &[Id]) -> Result<(), Memory>
    requires { removing.fits (target, entries.now) }
    ensures put { OnOk result (out.new.items ≡ out.old.items ++ removing.spell (target, entries.now)) }
    ensures kept { OnErr result (Keeps out.old.items out.new.items) }
{
    put_id(out, target)?;
    put_ids(out, entries)
}

// Appends what is moved, where it is placed, and the entries that it loses.
fn put_moving(
    out: &mut Vec<u8>,
    target: Id,
    dir: Id,
    name: &Name,
    entries: &[Id],
) -> Result<(), Memory>
    requires { moving.fits (target, (dir, (name.now, entries.now))) }
    ensures put { OnOk result (out.new.items ≡ out.old.items ++ moving.spell (target, (dir, (name.now, entries.now)))) }
    ensures kept { OnErr result (Keeps out.old.items out.new.items) }
{
    put_id(out, target)?;
    put_placing(out, dir, name, entries)
}

// Appends the directory and the name of a new entry, and the entries that are lost for it.
fn put_placing(out: &mut Vec<u8>, dir: Id, name: &Name, entries: &[Id]) -> Result<(), Memory>
    requires { placing.fits (dir, (name.now, entries.now)) }
    ensures put { OnOk result (out.new.items ≡ out.old.items ++ placing.spell (dir, (name.now, entries.now))) }
    ensures kept { OnErr result (Keeps out.old.items out.new.items) }
{
    put_id(out, dir)?;
    put_short_string(out, name.bytes())?;
    put_ids(out, entries)
}

// Appends the file, and its bytes behind their length.
fn put_writing(out: &mut Vec<u8>, file: Id, bytes: &[u8]) -> Result<(), Memory>
    requires { writing.fits (file, bytes.now) }
    ensures put { OnOk result (out.new.items ≡ out.old.items ++ writing.spell (file, bytes.now)) }
    ensures kept { OnErr result (Keeps out.old.items out.new.items) }
{
    put_id(out, file)?;
    put_long_string(out, bytes)
}

// Appends the object, and the directory and the name that it gets.
fn put_adopting(out: &mut Vec<u8>, file: Id, dir: Id, name: &Name) -> Result<(), Memory>
    requires { adopting.fits (file, (dir, name.now)) }
    ensures put { OnOk result (out.new.items ≡ out.old.items ++ adopting.spell (file, (dir, name.now))) }
    ensures kept { OnErr result (Keeps out.old.items out.new.items) }
{
    put_id(out, file)?;
    put_id(out, dir)?;
    put_short_string(out, name.bytes())
}

// Appends the directory, the name and the text of a new symbolic link.
fn put_symlinking(out: &mut Vec<u8>, dir: Id, name: &Name, text: &[u8]) -> Result<(), Memory>
    requires { symlinking.fits (dir, (name.now, text.now)) }
    ensures put { OnOk result (out.new.items ≡ out.old.items ++ symlinking.spell (dir, (name.now, text.now))) }
    ensures kept { OnErr result (Keeps out.old.items out.new.items) }
{
    put_id(out, dir)?;
    put_short_string(out, name.bytes())?;
    put_long_string(out, text)
}

// Appends the fields of the making of an object.
fn put_made(out: &mut Vec<u8>, dir: Id, name: &Name, kind: Kind, text: &[u8]) -> Result<(), Memory>
    requires { (making_layout dir name.now kind text.now).fits }
    ensures put { OnOk result (out.new.items ≡ out.old.items ++ (making_layout dir name.now kind text.now).body) }
    ensures kept { OnErr result (Keeps out.old.items out.new.items) }
{
    match kind {
        Kind::Symlink => put_symlinking(out, dir, name, text),
        Kind::Dir | Kind::Plain | Kind::Lines | Kind::Max | Kind::Keep => {
            put_making(out, dir, name, kind)
        }
    }
}

// The number of the making of an object of a kind.
fn tag_of_making(kind: Kind) -> u8
    ensures { (dir : IdValue) (called text : List ℕ) → result ≡ (making_layout dir called kind text).tag }
{
    match kind {
        Kind::Symlink => 13,
        Kind::Dir | Kind::Plain | Kind::Lines | Kind::Max | Kind::Keep => 1,
    }
}

// The number of the operation.
fn tag_of(op: &Op) -> u8
    ensures { result ≡ op_tag op.now }
{
    match op {
        Op::Make { kind, .. } => tag_of_making(*kind),
        Op::Link { .. } => 2,
        Op::Remove { .. } => 3,
        Op::Move { .. } => 4,
        Op::Write { .. } => 5,
        Op::Settle { .. } => 6,
        Op::Resolve { .. } => 7,
        Op::Adopt { .. } => 8,
        Op::Discard { .. } => 9,
    }
}

// Appends the fields of an operation.
fn put_fields(out: &mut Vec<u8>, op: &Op) -> Result<(), Memory>
    requires { FitsOp op.now }
    ensures put { OnOk result (out.new.items ≡ out.old.items ++ op_body op.now) }
    ensures kept { OnErr result (Keeps out.old.items out.new.items) }
{
    match op {
        Op::Make {
            dir,
            name,
            kind,
            text,
        } => put_made(out, *dir, name, *kind, text.items()),
        Op::Link { dir, name, target } => put_linking(out, *dir, name, *target),
        Op::Remove { entries, target } => put_removing(out, *target, entries.items()),
        Op::Move {
            entries,
            dir,
            name,
            target,
        } => put_moving(out, *target, *dir, name, entries.items()),
        Op::Write { file, bytes } => put_writing(out, *file, bytes.items()),
        Op::Settle { file, bytes } => put_writing(out, *file, bytes.items()),
        Op::Resolve { file, bytes } => put_writing(out, *file, bytes.items()),
        Op::Adopt { file, dir, name } => put_adopting(out, *file, *dir, name),
        Op::Discard { file } => put_id(out, *file),
    }
}

/// Appends the spelling of the record of an update, from the operation alone. After `Memory` part of it may be there.
pub fn put_change(out: &mut Vec<u8>, op: &Op) -> Result<(), Memory>
    requires { FitsOp op.now }
    ensures put { (members : ℕ)
        → OnOk result (out.new.items ≡ out.old.items ++ record_bytes members (Changes op.now)) }
    ensures kept { OnErr result (Keeps out.old.items out.new.items) }
{
    put_u8(out, tag_of(op))?;
    put_fields(out, op)
}

/// Appends what stands in front of the tables in the record of their taking: who appends their spelling, as they came,
/// has the whole.
pub fn put_accept_front(out: &mut Vec<u8>) -> Result<(), Memory>
    ensures put { OnOk result (out.new.items ≡ out.old.items ++ accept_front) }
    ensures kept { OnErr result (Keeps out.old.items out.new.items) }
{
    put_u8(out, 11)
}

/// Appends the one spelling of the record in a volume of so many members. After `Memory` part of it may stand there.
pub fn put_record(out: &mut Vec<u8>, noted: &Record, members: Members) -> Result<(), Memory>
    requires { FitsRecord members noted.now }
    ensures put { OnOk result (out.new.items ≡ out.old.items ++ record_bytes members noted.now) }
    ensures kept { OnErr result (Keeps out.old.items out.new.items) }
{
    match noted {
        Record::Change(op) => put_change(out, op),
        Record::Ask => put_u8(out, 10),
        Record::Accept { entries, files } => {
            put_accept_front(out)?;
            put_rows(out, entries.items(), files.items(), members)
        }
        Record::Collect => put_u8(out, 12),
    }
}

/// The one spelling of the record in a volume of so many members.
pub fn encode_record(alloc: Global, noted: &Record, members: Members) -> Result<Vec<u8>, Memory>
    requires { FitsRecord members noted.now }
    ensures { IfOk result (λ bytes. bytes.items ≡ record_bytes members noted.now) }
{
    let mut out = Vec::new(alloc);
    put_record(&mut out, noted, members)?;
    Ok(out)
}

/// The spelling of the tables in the record of their taking.
pub fn accepted_tables(noted: &[u8]) -> &[u8]
    requires { length accept_front ≤ length noted.now }
    ensures { (tables : List ℕ) → noted.now ≡ accept_front ++ tables → result.now ≡ tables }
{
    &noted[1..]
}
