ghost use Rattle.std.specs.Prelude.{◌≡◌, ◌++◌, map, All, IsTrue, IfOk, IfSome, IfNone, OnErr, OnOk};
ghost use Rattle.ficus_formats.specs.Format.{Begins, Keeps, Reads};
ghost use Rattle.ficus_durable_state.specs.Tables.{FitsEntry, FitsFile, FitsTables};

use ficus_entry::{Entries, SharedEntry};
use ficus_file::{Files, SharedFile};
use ficus_formats::{ReadFault, Reader, RowSpelling, Spelling, Window, WindowSpelling};
use ficus_ids::{Id, Members, Memory};
use ficus_persistent::PersistentList;
use ficus_table::Row;
use std::alloc::Global;
use std::cell::Cell;
use std::marker::Model;

/// Rows of a volume that are held where tables are read: a row of the tables that is spelled as one of them is, is that
/// one, and is built of nothing. What is read depends on none of them. Contracts see how many members the volume has.
#[derive(Drop)]
pub struct Known {
    members: Members,
    entries: PersistentList<SharedEntry>,
    files: PersistentList<SharedFile>,
}

impl Model for Known {
    ghost use Rattle.std.specs.Prelude.{ℕ, All};

    ghost Value = { ℕ };

    ghost view = { λ known. known.members };

    ghost use Rattle.ficus_durable_state.specs.Tables.{FitsEntry, FitsFile};

    // Each has been looked at, so none is looked at again where its spelling is passed.
    ghost invariant = { λ known.
        All (FitsEntry known.members) known.entries × All (FitsFile known.members) known.files };
}

impl Known {
    /// No rows. Takes no memory.
    pub fn none(members: Members) -> Known
        ensures { result ≡ members }
    {
        Known {
            members,
            entries: PersistentList::new(),
            files: PersistentList::new(),
        }
    }

    /// The rows of tables, with which it shares them.
    pub fn of(entries: &Entries, files: &Files, members: Members) -> Result<Known, Memory>
        requires { FitsTables members entries.now files.now }
        ensures { IfOk result (λ known. known ≡ members) }
    {
        Ok(Known {
            members,
            entries: entries.whole()?,
            files: files.whole()?,
        })
    }

    /// How many members the volume has.
    pub fn members(&self) -> Members
        ensures { result ≡ self.now }
    {
        self.members
    }

    /// Each of the entries, in order.
    pub(crate) fn each_entry(&self, alloc: Global) -> Result<Vec<&SharedEntry>, Memory>
        ensures { IfOk result (λ each. All (λ row. FitsEntry self.now row.now) each.items) }
    {
        each_of(alloc, &self.entries)
    }

    /// Each of the files, in order.
    pub(crate) fn each_file(&self, alloc: Global) -> Result<Vec<&SharedFile>, Memory>
        ensures { IfOk result (λ each. All (λ row. FitsFile self.now row.now) each.items) }
    {
        each_of(alloc, &self.files)
    }
}

// Each of the rows, in order.
fn each_of<R: Row>(alloc: Global, rows: &PersistentList<R>) -> Result<Vec<&R>, Memory>
    ensures { IfOk result (λ each. map (λ row. row.now) each.items ≡ rows.now) }
{
    let mut each = Vec::with_capacity(alloc, rows.len())?;
    rows.gather(&mut each)?;
    Ok(each)
}

// Where the known row is whose identifier stands in front of the bytes, if it isn't the next one. What is read rises
// with the rows, so behind it the one after it is the next one.
fn search<R: Row>(known: &[&R], next: &Cell<usize>, reader: &Reader<'_>) -> Option<usize> {
    let id = reader.again().id().ok()?;
    let place = place_near(known, next.get(), id);
    next.set(place.saturating_add(1));
    Some(place)
}

// Where the row with the identifier is, if rows rise and one has it.
fn place_near<R: Row>(known: &[&R], near: usize, id: Id) -> usize {
    if near < known.len() && R::id(known[near].look()) == id {
        return near;
    }
    known.partition_point(|row| R::id(row.look()) < id)
}

/// A row that tables have, with how it is spelled in a volume of so many members.
pub(crate) trait TableRow: Row {
    ghost use Rattle.std.specs.Prelude.{ℕ};
    ghost use Rattle.ficus_formats.specs.Format.{Format, IsUnique};

    /// Which rows may stand in tables, and which bytes spell them.
    ghost format: { ℕ → Format Self };

    /// Each has one spelling, and none begins another.
    ghost unique: { (members : ℕ) → IsUnique (format members) };

    /// Passes the row, which may stand in tables, if its spelling stands in front.
    fn passes(&self, reader: &mut Reader<'_>, members: Members) -> bool
        requires { (format members).fits self.now }
        ensures { IsTrue result → Begins (format members) reader.old self.now reader.new };

    /// Reads a row of its own.
    fn read_row(alloc: Global, reader: &mut Reader<'_>, members: Members) -> Result<Self, ReadFault>
        ensures { Reads (format members) reader.old result reader.new };

    /// Appends the spelling of the row.
    fn put_row(&self, out: &mut Vec<u8>, members: Members) -> Result<(), Memory>
        requires { (format members).fits self.now }
        ensures put { OnOk result (out.new.items ≡ out.old.items ++ (format members).spell self.now) }
        ensures kept { OnErr result (Keeps out.old.items out.new.items) };
}

/// A row of tables that is written through a window.
pub(crate) trait WindowRow: TableRow {
    /// Puts the spelling of the row behind what was spelled before, of which the window holds the last bytes.
    fn put_row_in(
        &self,
        window: &mut Window,
        out: &mut Vec<u8>,
        members: Members,
    ) -> Result<(), Memory>
        requires { (Self.TableRow.format members).fits self.now }
        ensures put { OnOk result (out.new.items ++ window.new
            ≡ (out.old.items ++ window.old) ++ (Self.TableRow.format members).spell self.now) }
        ensures kept { Keeps out.old.items out.new.items };
}

// A row of its own. It stands apart, so that no room is made for one where a known row is passed.
#[inline(never)]
fn read_new<R: TableRow>(
    alloc: Global,
    reader: &mut Reader<'_>,
    members: Members,
) -> Result<R, ReadFault>
    ensures { Reads (R.format members) reader.old result reader.new }
{
    R::read_row(alloc, reader, members)
}

// What is left behind the spelling of a row that may stand in tables, where that stands in front.
fn behind<'a, R: TableRow>(row: &R, reader: &Reader<'a>, members: Members) -> Option<Reader<'a>>
    requires { (R.format members).fits row.now }
    ensures { IfSome result (Begins (R.format members) reader.now row.now) }
{
    let mut rest = reader.again();
    if row.passes(&mut rest, members) {
        Some(rest)
    } else {
        None
    }
}

/// How rows are spelled in a volume of so many members, where some are known. Contracts see how many members there are.
#[derive(Drop)]
pub(crate) struct KnownRows<'a, R: TableRow> {
    members: Members,
    known: &'a [&'a R],
    // The place of the row that is looked at first.
    next: Cell<usize>,
}

impl<'a, R: TableRow> Model for KnownRows<'a, R> {
    ghost use Rattle.std.specs.Prelude.{ℕ, All};

    ghost Value = { ℕ };

    ghost view = { λ s. s.members };

    ghost invariant = { λ s. All (λ row. (R.format s.members).fits row.now) s.known.now };
}

impl<'a, R: TableRow> KnownRows<'a, R> {
    /// None is known.
    pub(crate) fn none(members: Members) -> KnownRows<'a, R>
        ensures { result ≡ members }
    {
        KnownRows::of(members, &[])
    }

    /// These are known, which may stand in tables.
    pub(crate) fn of(members: Members, known: &'a [&'a R]) -> KnownRows<'a, R>
        requires { All (λ row. (R.format members).fits row.now) known.now }
        ensures { result ≡ members }
    {
        KnownRows {
            members,
            known,
            next: Cell::new(0),
        }
    }

    // The known row at the place, if its spelling stands in front, which it passes.
    #[inline(always)]
    fn pass_at(&self, place: usize, reader: &mut Reader<'_>) -> Option<&'a R>
        ensures passed { IfSome result (λ row. Begins (R.format self.now) reader.old row.now reader.new) }
        ensures kept { IfNone result (reader.new ≡ reader.old) }
    {
        let row = *self.known.get(place)?;
        *reader = behind(row, reader, self.members)?;
        self.next.set(place.saturating_add(1));
        Some(row)
    }

    // The known row whose spelling stands in front, which it passes, where it isn't the next one.
    #[inline(never)]
    fn pass_another(&self, reader: &mut Reader<'_>) -> Option<&'a R>
        ensures passed { IfSome result (λ row. Begins (R.format self.now) reader.old row.now reader.new) }
        ensures kept { IfNone result (reader.new ≡ reader.old) }
    {
        let place = search(self.known, &self.next, reader)?;
        self.pass_at(place, reader)
    }

    // The known row whose spelling stands in front, which it passes: mostly the next one.
    fn pass(&self, reader: &mut Reader<'_>) -> Option<&'a R>
        ensures passed { IfSome result (λ row. Begins (R.format self.now) reader.old row.now reader.new) }
        ensures kept { IfNone result (reader.new ≡ reader.old) }
    {
        match self.pass_at(self.next.get(), reader) {
            Some(row) => Some(row),
            None => self.pass_another(reader),
        }
    }
}

impl<'a, R: TableRow> Spelling for KnownRows<'a, R> {
    type Value = R;

    ghost format = { λ s. R.format s };

    ghost unique = { λ s. R.unique s };

    fn read(&self, alloc: Global, reader: &mut Reader<'_>) -> Result<R, ReadFault> {
        if let Some(row) = self.pass(reader) {
            return Ok(row.copied()?);
        }
        read_new(alloc, reader, self.members)
    }

    fn put(&self, out: &mut Vec<u8>, value: &R) -> Result<(), Memory> {
        value.put_row(out, self.members)
    }
}

impl<'a, R: WindowRow> WindowSpelling for KnownRows<'a, R> {
    fn put_in(&self, window: &mut Window, out: &mut Vec<u8>, value: &R) -> Result<(), Memory> {
        value.put_row_in(window, out, self.members)
    }
}

impl<'a, R: TableRow> RowSpelling for KnownRows<'a, R> {
    ghost id_of = { λ row. R.id_of (R.seen row) };

    fn id(value: &R) -> Id {
        R::id(value.look())
    }
}
