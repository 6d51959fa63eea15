ghost use Rattle.std.specs.Prelude.{◌≡◌, ◌++◌, List, ℕ, IfOk, IsErrOf};
ghost use Rattle.ficus_ids.specs.Members.{IsCount};
ghost use Rattle.ficus_formats.specs.Format.{Reads, ReadsAll, Spells};
ghost use Rattle.ficus_model.specs.declared.event.Op.TheVariants.{Make};
ghost use Rattle.ficus_record.specs.Record.{FitsRecord, op_under, record_bytes, record_format, record_under};
ghost use Rattle.ficus_record.specs.declared.record.Record.{Record as RecordValue};

use crate::fields::{
    read_adopting, read_linking, read_making, read_moving, read_removing, read_symlinking,
    read_writing,
};
use crate::{Record, RecordFault};
use ficus_codec::{Known, read_rows};
use ficus_formats::{ReadFault, Reader};
use ficus_ids::{Id, Kind, Listed, Members, Name};
use ficus_model::Op;
use std::alloc::Global;

// The operation of this number, whose fields stand next.
fn read_op(alloc: Global, reader: &mut Reader<'_>, tag: u8) -> Result<Op, ReadFault>
    ensures { Reads (op_under tag) reader.old result reader.new }
{
    match tag {
        1 => {
            let (dir, (name, kind)) = read_making(reader)?;
            Ok(made(dir, name, kind, Listed::of(Vec::new(alloc))))
        }
        2 => {
            let (dir, (name, target)) = read_linking(reader)?;
            Ok(Op::Link { dir, name, target })
        }
        3 => {
            let (target, entries) = read_removing(alloc, reader)?;
            Ok(Op::Remove { entries, target })
        }
        4 => {
            let (target, (dir, (name, entries))) = read_moving(alloc, reader)?;
            Ok(Op::Move {
                entries,
                dir,
                name,
                target,
            })
        }
        5 => {
            let (file, bytes) = read_writing(alloc, reader)?;
            Ok(Op::Write { file, bytes })
        }
        6 => {
            let (file, bytes) = read_writing(alloc, reader)?;
            Ok(Op::Settle { file, bytes })
        }
        7 => {
            let (file, bytes) = read_writing(alloc, reader)?;
            Ok(Op::Resolve { file, bytes })
        }
        8 => {
            let (file, (dir, name)) = read_adopting(reader)?;
            Ok(Op::Adopt { file, dir, name })
        }
        9 => {
            let file = reader.id()?;
            Ok(Op::Discard { file })
        }
        13 => {
            let (dir, (name, text)) = read_symlinking(alloc, reader)?;
            Ok(made(dir, name, Kind::Symlink, text))
        }
        _ => Err(ReadFault::Unspelled),
    }
}

// The making of an object of a kind, with a text, under a name in the directory.
fn made(dir: Id, name: Name, kind: Kind, text: Listed<u8>) -> Op
    ensures { result ≡ Make dir name kind text }
{
    Op::Make {
        dir,
        name,
        kind,
        text,
    }
}

// What stands behind the number of a record.
fn read_fields(
    alloc: Global,
    reader: &mut Reader<'_>,
    members: Members,
    tag: u8,
) -> Result<Record, ReadFault>
    ensures { Reads (record_under members tag) reader.old result reader.new }
{
    match tag {
        10 => Ok(Record::Ask),
        11 => {
            let (entries, files) = read_rows(alloc, reader, &Known::none(members))?;
            Ok(Record::Accept { entries, files })
        }
        12 => Ok(Record::Collect),
        _ => {
            let op = read_op(alloc, reader, tag)?;
            Ok(Record::Change(op))
        }
    }
}

// The record that the bytes spell which are left, from the first to the last.
fn read_record(alloc: Global, reader: Reader<'_>, members: Members) -> Result<Record, ReadFault>
    ensures { ReadsAll (record_format members) reader.entry result }
{
    // Tells that there are so many.
    let _count = members.count();
    let mut rest = reader;
    let tag = rest.byte()?;
    let noted = read_fields(alloc, &mut rest, members, tag)?;
    if rest.is_empty() {
        Ok(noted)
    } else {
        Err(ReadFault::Unspelled)
    }
}

/// The record that the bytes spell in a volume of so many members, from the first byte to the last. `NotRecord` comes
/// exactly where they spell none, and `Unfit` never.
pub fn decode_record(alloc: Global, bytes: &[u8], members: Members) -> Result<Record, RecordFault>
    ensures fits { IfOk result (λ noted. FitsRecord members noted) }
    ensures spelled { IfOk result (λ noted. bytes.now ≡ record_bytes members noted) }
    ensures not_record { IsErrOf result RecordFault.NotRecord → (noted : RecordValue) → FitsRecord members noted
        → bytes.now ≡ record_bytes members noted → ⊥ }
    ensures never { IsErrOf result RecordFault.Unfit → ⊥ }
{
    let noted = read_record(alloc, Reader::new(bytes), members)?;
    Ok(noted)
}

/// The law that no record has the spelling of another, and that no spelling begins another. It does nothing when it
/// runs.
pub fn one_record()
    ensures { (members : ℕ) (one other : RecordValue) (a b : List ℕ) → IsCount members → FitsRecord members one
        → FitsRecord members other → record_bytes members one ++ a ≡ record_bytes members other ++ b
        → (one ≡ other) × (a ≡ b) }
{}
