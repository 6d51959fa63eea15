ghost use Rattle.std.specs.Prelude.{◌≡◌, ◌↔◌, IsTrue, IfErr};
ghost use Rattle.ficus_ids.specs.Name.{IsName};
ghost use Rattle.ficus_formats.specs.Format.{Begins, Reads, id as id_format};
ghost use Rattle.ficus_codec.specs.Formats.{name, marks, dead, state, entry, entry_fields};
ghost use Rattle.ficus_codec.specs.FormatsUnique.{unique-entry};
ghost use Rattle.ficus_durable_state.specs.Tables.{IsIssuable, MayHoldEntries, FitsState, FitsEntry};

use crate::known::TableRow;
use ficus_durable_state::UPDATE_LIMIT;
use ficus_entry::{Entry, SharedEntry, State};
use ficus_formats::{ReadFault, Reader};
use ficus_ids::{ATTIC, Id, Marks, Members, Memory, Name, NameFault, ROOT};
use std::alloc::Global;

// Whether some member may have issued the identifier.
pub(crate) fn is_issuable(id: Id, members: Members) -> bool
    ensures { IsTrue result ↔ IsIssuable members id }
{
    members.has(id.replica) && (1..=UPDATE_LIMIT).contains(&id.number)
}

// Whether entries may lie in the directory.
fn may_hold_entries(dir: Id, members: Members) -> bool
    ensures { IsTrue result ↔ MayHoldEntries members dir }
{
    dir == ROOT || dir == ATTIC || is_issuable(dir, members)
}

// Whether the entry, with a name and marks that may be, may stand in tables.
fn fits_entry(entry: &Entry, members: Members) -> bool
    requires name { IsName entry.now.name }
    requires state { FitsState members entry.now.state }
    ensures { IsTrue result ↔ FitsEntry members entry.now }
{
    is_issuable(entry.id, members)
        && may_hold_entries(entry.dir, members)
        && is_issuable(entry.target, members)
        && !(entry.dir == ATTIC && entry.is_live())
}

/// Reads a name: its length in one byte, and its bytes.
pub fn read_name(reader: &mut Reader<'_>) -> Result<Name, ReadFault>
    ensures reads { Reads name reader.old result reader.new }
    ensures unspelled { IfErr result (λ fault. fault ≡ ReadFault.Unspelled) }
{
    let bytes = reader.short_string()?;
    match Name::new(bytes) {
        Ok(name) => Ok(name),
        Err(NameFault::NotName) => Err(ReadFault::Unspelled),
        Err(NameFault::Memory) => Err(ReadFault::Memory),
    }
}

fn read_marks(reader: &mut Reader<'_>, members: Members) -> Result<Marks, ReadFault>
    ensures reads { Reads (marks members) reader.old result reader.new }
    ensures unspelled { IfErr result (λ fault. fault ≡ ReadFault.Unspelled) }
{
    let bits = reader.byte()?;
    Marks::from_bits(bits, members).ok_or(ReadFault::Unspelled)
}

fn read_dead(reader: &mut Reader<'_>, members: Members) -> Result<(Marks, Marks), ReadFault>
    ensures reads { Reads (dead members) reader.old result reader.new }
    ensures unspelled { IfErr result (λ fault. fault ≡ ReadFault.Unspelled) }
{
    let one = read_marks(reader, members)?;
    let two = read_marks(reader, members)?;
    if one.bits() == 0 {
        return Err(ReadFault::Unspelled);
    }
    Ok((one, two))
}

fn read_state(reader: &mut Reader<'_>, members: Members) -> Result<State, ReadFault>
    ensures reads { Reads (state members) reader.old result reader.new }
    ensures unspelled { IfErr result (λ fault. fault ≡ ReadFault.Unspelled) }
{
    match reader.byte()? {
        0 => Ok(State::Live),
        1 => {
            let (one, two) = read_dead(reader, members)?;
            Ok(State::Dead { one, two })
        }
        _ => Err(ReadFault::Unspelled),
    }
}

// Passes an identifier, if its spelling stands in front.
pub(crate) fn passes_id(reader: &mut Reader<'_>, id: Id) -> bool
    ensures { IsTrue result → Begins id_format reader.old id reader.new }
{
    match reader.id() {
        Ok(read) => read == id,
        Err(_) => false,
    }
}

// Passes a name, if its spelling stands in front.
fn passes_name(reader: &mut Reader<'_>, value: &Name) -> bool
    ensures { IsTrue result → Begins name reader.old value.now reader.new }
{
    match reader.short_string() {
        Ok(read) => read == value.bytes(),
        Err(_) => false,
    }
}

// Passes a state, if its spelling stands in front.
fn passes_state(reader: &mut Reader<'_>, value: State, members: Members) -> bool
    ensures { IsTrue result → Begins (state members) reader.old value reader.new }
{
    match read_state(reader, members) {
        Ok(read) => read == value,
        Err(_) => false,
    }
}

// Passes the fields of an entry, if their spelling stands in front.
fn passes_fields(reader: &mut Reader<'_>, entry: &Entry, members: Members) -> bool
    ensures { IsTrue result → Begins (entry_fields members) reader.old entry.now reader.new }
{
    passes_id(reader, entry.id)
        && passes_id(reader, entry.dir)
        && passes_name(reader, &entry.name)
        && passes_id(reader, entry.target)
        && passes_state(reader, entry.state, members)
}

// The fields of an entry, each by itself.
fn read_fields(reader: &mut Reader<'_>, members: Members) -> Result<Entry, ReadFault>
    ensures reads { Reads (entry_fields members) reader.old result reader.new }
    ensures unspelled { IfErr result (λ fault. fault ≡ ReadFault.Unspelled) }
{
    Ok(Entry {
        id: reader.id()?,
        dir: reader.id()?,
        name: read_name(reader)?,
        target: reader.id()?,
        state: read_state(reader, members)?,
    })
}

// An entry that may stand in tables.
fn read_entry(reader: &mut Reader<'_>, members: Members) -> Result<Entry, ReadFault>
    ensures reads { Reads (entry members) reader.old result reader.new }
    ensures unspelled { IfErr result (λ fault. fault ≡ ReadFault.Unspelled) }
{
    let entry = read_fields(reader, members)?;
    if fits_entry(&entry, members) {
        Ok(entry)
    } else {
        Err(ReadFault::Unspelled)
    }
}

impl TableRow for SharedEntry {
    ghost format = { entry };

    ghost unique = { unique-entry };

    fn passes(&self, reader: &mut Reader<'_>, members: Members) -> bool {
        passes_fields(reader, self.entry(), members)
    }

    fn read_row(
        alloc: Global,
        reader: &mut Reader<'_>,
        members: Members,
    ) -> Result<SharedEntry, ReadFault> {
        let entry = read_entry(reader, members)?;
        Ok(SharedEntry::of(alloc, entry)?)
    }

    fn put_row(&self, out: &mut Vec<u8>, _members: Members) -> Result<(), Memory> {
        self.entry().put(out)
    }
}
