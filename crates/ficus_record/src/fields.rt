ghost use Rattle.std.specs.Prelude.{◌≡◌};
ghost use Rattle.ficus_formats.specs.Format.{Reads, id, string, number16};
ghost use Rattle.ficus_formats.specs.Unique.{unique-id};
ghost use Rattle.ficus_record.specs.Record.{adopting, fixed_text, ids, linking, making, moving, removing, symlinking, textless, writing};

use ficus_codec::{read_kind, read_name};
use ficus_formats::{ReadFault, Reader, RowSpelling, Spelling, put_id, read_rising};
use ficus_ids::{FIXED_LIMIT, Id, Kind, Listed, Memory, Name};
use std::alloc::Global;

/// How identifiers are spelled.
#[derive(Drop)]
pub(crate) struct IdSpelling {}

impl Spelling for IdSpelling {
    type Value = Id;

    ghost format = { λ _. id };

    ghost unique = { λ _. unique-id };

    fn read(&self, _: Global, reader: &mut Reader<'_>) -> Result<Id, ReadFault> {
        reader.id()
    }

    fn put(&self, out: &mut Vec<u8>, value: &Id) -> Result<(), Memory> {
        put_id(out, *value)
    }
}

impl RowSpelling for IdSpelling {
    ghost id_of = { λ x. x };

    fn id(value: &Id) -> Id {
        *value
    }
}

// Rising identifiers behind their count.
fn read_ids(alloc: Global, reader: &mut Reader<'_>) -> Result<Listed<Id>, ReadFault>
    ensures { Reads ids reader.old result reader.new }
{
    read_rising(&IdSpelling {}, alloc, reader)
}

// A kind of what is made without a text.
fn read_textless(reader: &mut Reader<'_>) -> Result<Kind, ReadFault>
    ensures { Reads textless reader.old result reader.new }
{
    let kind = read_kind(reader)?;
    if kind == Kind::Symlink {
        return Err(ReadFault::Unspelled);
    }
    Ok(kind)
}

// A text that stays.
fn read_fixed_text(alloc: Global, reader: &mut Reader<'_>) -> Result<Listed<u8>, ReadFault>
    ensures { Reads fixed_text reader.old result reader.new }
{
    let bytes = reader.long_string()?;
    if bytes.is_empty() || bytes.len() > FIXED_LIMIT {
        return Err(ReadFault::Unspelled);
    }
    Ok(Listed::of(Vec::from_slice(alloc, bytes)?))
}

/// The directory, the name and the kind of a new object without a text.
pub(crate) fn read_making(reader: &mut Reader<'_>) -> Result<(Id, (Name, Kind)), ReadFault>
    ensures { Reads making reader.old result reader.new }
{
    Ok((reader.id()?, (read_name(reader)?, read_textless(reader)?)))
}

/// The directory, the name and the text of a new symbolic link.
pub(crate) fn read_symlinking(
    alloc: Global,
    reader: &mut Reader<'_>,
) -> Result<(Id, (Name, Listed<u8>)), ReadFault>
    ensures { Reads symlinking reader.old result reader.new }
{
    Ok((
        reader.id()?,
        (read_name(reader)?, read_fixed_text(alloc, reader)?),
    ))
}

/// The directory and the name of a new entry, and what it leads to.
pub(crate) fn read_linking(reader: &mut Reader<'_>) -> Result<(Id, (Name, Id)), ReadFault>
    ensures { Reads linking reader.old result reader.new }
{
    Ok((reader.id()?, (read_name(reader)?, reader.id()?)))
}

/// What is removed, and its entries.
pub(crate) fn read_removing(
    alloc: Global,
    reader: &mut Reader<'_>,
) -> Result<(Id, Listed<Id>), ReadFault>
    ensures { Reads removing reader.old result reader.new }
{
    Ok((reader.id()?, read_ids(alloc, reader)?))
}

/// What is moved, the directory and the name that it gets, and the entries that it loses.
pub(crate) fn read_moving(
    alloc: Global,
    reader: &mut Reader<'_>,
) -> Result<(Id, (Id, (Name, Listed<Id>))), ReadFault>
    ensures { Reads moving reader.old result reader.new }
{
    Ok((
        reader.id()?,
        (reader.id()?, (read_name(reader)?, read_ids(alloc, reader)?)),
    ))
}

// Bytes behind their length.
fn read_text(alloc: Global, reader: &mut Reader<'_>) -> Result<Listed<u8>, ReadFault>
    ensures { Reads (string number16) reader.old result reader.new }
{
    let bytes = reader.long_string()?;
    Ok(Listed::of(Vec::from_slice(alloc, bytes)?))
}

/// The file, and its bytes.
pub(crate) fn read_writing(
    alloc: Global,
    reader: &mut Reader<'_>,
) -> Result<(Id, Listed<u8>), ReadFault>
    ensures { Reads writing reader.old result reader.new }
{
    Ok((reader.id()?, read_text(alloc, reader)?))
}

/// The object, and the directory and the name that it gets.
pub(crate) fn read_adopting(reader: &mut Reader<'_>) -> Result<(Id, (Id, Name)), ReadFault>
    ensures { Reads adopting reader.old result reader.new }
{
    Ok((reader.id()?, (reader.id()?, read_name(reader)?)))
}
