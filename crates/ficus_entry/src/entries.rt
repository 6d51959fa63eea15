ghost use Rattle.std.specs.Prelude.{◌≡◌, ◌↔◌, ◌≤◌, ◌<◌, ◌==◌, [], ◌∷◌, ◌++◌, length, slice_get, List, Some, IsTrue, IfOk, OnOk, OnErr};
ghost use Rattle.std.specs.Option.{option_copied};
ghost use Rattle.ficus_ids.specs.Rising.{LeavesOutBy};
ghost use Rattle.ficus_entry.specs.declared.entry.Entry.{Entry as EntryValue};
ghost use Rattle.ficus_entry.specs.Entry.{IsRising, IsAboveAll, Holds, HoldsUnder, AddsEntry, PutsEntry};
ghost use Rattle.ficus_entry.specs.Kill.{HoldsLive, NoneIsLive, IsKilled};
ghost use Rattle.ficus_entry.specs.Place.{AreNoted};

use crate::note::{notes, noting, renoted};
use crate::{Entry, SharedEntry, State};
use ficus_ids::{Id, Marks, Memory};
use ficus_index::Index;
use ficus_persistent::PersistentList;
use ficus_table::{InOrder, Table};
use std::alloc::Global;
use std::marker::Model;

/// Entries with different identifiers. Contracts see them as a list in which the identifiers rise strictly. A copy
/// shares what it has with them, and a change takes time for a logarithm of them alone. A removal takes no memory:
/// until the next copy or insert the index notes what was removed as while it lived.
#[derive(Drop)]
pub struct Entries {
    pub(crate) table: Table<SharedEntry>,
    pub(crate) index: Index,
}

impl Model for Entries {
    ghost use Rattle.std.specs.Prelude.{List};
    ghost use Rattle.ficus_entry.specs.declared.entry.Entry.{Entry as EntryValue};

    ghost Value = { List EntryValue };

    ghost use Rattle.ficus_entry.specs.Place.{AreNotedBut};

    ghost view = { λ e. e.table.items };

    ghost invariant = { λ e. AreNotedBut e.table.items e.table.edited e.index };
}

impl Entries {
    /// No entries. Takes no memory.
    pub fn new(alloc: Global) -> Entries
        ensures { result ≡ [] }
    {
        Entries {
            table: Table::new(alloc),
            index: Index::new(),
        }
    }

    /// These entries, which other lists may share and whose identifiers rise strictly. It takes less time than to put
    /// one after the other.
    pub fn of_rows(alloc: Global, rows: &[SharedEntry]) -> Result<Entries, Memory>
        requires { IsRising rows.now }
        ensures { IfOk result (λ built. built ≡ rows.now) }
    {
        let notes = notes(alloc, &InOrder::of_rows(rows))?;
        let index = Index::of(alloc, notes)?;
        let table = Table::of(alloc, rows)?;
        Ok(Entries { table, index })
    }

    /// How many entries there are.
    pub fn len(&self) -> usize
        ensures value { result ≡ length self.now }
        ensures rising { IsRising self.now }
    {
        self.table.len()
    }

    /// Whether there are no entries.
    pub fn is_empty(&self) -> bool
        ensures { result ≡ (length self.now == 0) }
    {
        self.table.is_empty()
    }

    /// The entry at a place in the order of identifiers, from 0. The place is below the length.
    pub fn at(&self, index: usize) -> &Entry
        requires { index < length self.now }
        ensures { slice_get self.now index ≡ Some result.now }
    {
        self.table.at(index)
    }

    /// The entry with an identifier, or `None` exactly where no entry has it.
    pub fn get(&self, id: Id) -> Option<&Entry>
        ensures found { HoldsUnder self.now id (option_copied result) }
        ensures rising { IsRising self.now }
    {
        self.table.get(id)
    }

    /// The entry with an identifier, for another list to share, or `None` exactly where no entry has it.
    pub fn shared(&self, id: Id) -> Result<Option<SharedEntry>, Memory>
        ensures { IfOk result (HoldsUnder self.now id) }
    {
        match self.table.search(id) {
            Ok(index) => Ok(Some(self.table.row(index)?)),
            Err(_) => Ok(None),
        }
    }

    /// The entries in order, for other lists to share.
    pub fn rows(&self) -> Result<Vec<SharedEntry>, Memory>
        ensures same { IfOk result (λ rows. rows.items ≡ self.now) }
        ensures rising { IsRising self.now }
    {
        // Tells that the identifiers rise.
        let _count = self.len();
        self.table.rows()
    }

    /// The entries in order, in a list that shares its nodes with these.
    pub fn whole(&self) -> Result<PersistentList<SharedEntry>, Memory>
        ensures { IfOk result (λ list. list ≡ self.now) }
    {
        self.table.whole()
    }

    /// A copy of the entries, which shares their rows, with memory from where these have theirs.
    pub fn copy(&self) -> Result<Entries, Memory>
        ensures { IfOk result (λ entries. entries ≡ self.now) }
    {
        let index = self.folded()?;
        let table = self.table.copy()?;
        Ok(Entries { table, index })
    }

    /// Adds an entry whose identifier no entry has. After `Memory` the entries are as before.
    pub fn insert(&mut self, entry: Entry) -> Result<(), Memory>
        requires { Holds self.old entry.id → ⊥ }
        ensures added { OnOk result (AddsEntry self.old self.new entry) }
        ensures kept { OnErr result (self.new ≡ self.old) }
        ensures rising { IsRising self.new }
    {
        self.put(entry)
    }

    /// Adds an entry behind all others: its identifier is above theirs. After `Memory` the entries are as before.
    pub fn append(&mut self, entry: Entry) -> Result<(), Memory>
        requires { IsAboveAll self.old entry.id }
        ensures appended { OnOk result (self.new ≡ self.old ++ entry ∷ []) }
        ensures kept { OnErr result (self.new ≡ self.old) }
        ensures rising { IsRising self.new }
    {
        // Tells that the identifiers rise.
        let _count = self.len();
        let index = self.index_more(&entry)?;
        let shared = SharedEntry::of(self.allocator(), entry)?;
        self.table.append(shared)?;
        self.index = index;
        Ok(())
    }

    /// Adds an entry, in place of the one with its identifier if there is one. After `Memory` the entries are as
    /// before.
    pub fn put(&mut self, entry: Entry) -> Result<(), Memory>
        ensures put { OnOk result (PutsEntry self.old self.new entry) }
        ensures kept { OnErr result (self.new ≡ self.old) }
        ensures rising { IsRising self.new }
    {
        // Tells that the identifiers rise.
        let _count = self.len();
        let shared = SharedEntry::of(self.allocator(), entry)?;
        self.put_shared(shared)
    }

    /// Adds an entry that other lists may share, as [`put`](Entries::put) does.
    pub fn put_shared(&mut self, entry: SharedEntry) -> Result<(), Memory>
        ensures put { OnOk result (PutsEntry self.old self.new entry) }
        ensures kept { OnErr result (self.new ≡ self.old) }
        ensures rising { IsRising self.new }
    {
        // Tells that the identifiers rise.
        let _count = self.table.len();
        let index = self.index_with(entry.entry())?;
        self.table.put(entry)?;
        self.index = index;
        Ok(())
    }

    /// The entries whose identifiers are none of these, which no live entry has: where only removed entries leave, the
    /// index stays as it is. It shares with these what stays, and takes time for a logarithm of them for each
    /// identifier.
    pub fn without(&self, ids: &[Id]) -> Result<Entries, Memory>
        requires { NoneIsLive self.now ids.now }
        ensures left { IfOk result (LeavesOutBy (λ entry. entry.id) self.now ids.now) }
        ensures rising { IfOk result IsRising }
    {
        // Tells that the identifiers rise.
        let _count = self.len();
        let index = self.folded()?;
        let table = self.table.without(ids)?;
        Ok(Entries { table, index })
    }

    /// Whether a live entry has the identifier.
    pub fn holds_live(&self, id: Id) -> bool
        ensures { IsTrue result ↔ HoldsLive self.now id }
    {
        match self.get(id) {
            Some(entry) => entry.is_live(),
            None => false,
        }
    }

    /// Removes the live entry with the identifier: it becomes dead, and `by` is known to know of it. Takes no
    /// memory.
    pub fn kill(&mut self, id: Id, by: u8)
        requires live { HoldsLive self.old id }
        requires at_least { 1 ≤ by }
        requires at_most { by ≤ 8 }
        ensures killed { IsKilled self.old self.new id by }
        ensures rising { IsRising self.new }
    {
        let Ok(index) = self.table.search(id) else {
            unreachable!()
        };
        let Ok(mut entry) = self.table.at(index).copy() else {
            unreachable!()
        };
        entry.state = State::Dead {
            one: Marks::empty().with(by),
            two: Marks::empty(),
        };
        self.table.edit(index, entry);
    }

    /// From where these have their memory.
    pub(crate) fn allocator(&self) -> Global {
        self.table.allocator()
    }

    // The entries of a table, with an index that is made anew.
    pub(crate) fn indexed(table: Table<SharedEntry>) -> Result<Entries, Memory>
        requires { table.edited ≡ [] }
        ensures { IfOk result (λ entries. entries ≡ table.items) }
    {
        let index = index_of(&table)?;
        Ok(Entries { table, index })
    }

    // An index that notes the entries as they are, and so nothing of those that are removed.
    fn folded(&self) -> Result<Index, Memory>
        ensures { IfOk result (λ index. AreNoted self.now index) }
    {
        let alloc = self.allocator();
        let mut index = self.index.copy()?;
        for place in 0..self.table.edit_count() {
            let entry = self.table.at(self.table.edited_at(place));
            index = index.without(alloc, entry.note())?;
        }
        Ok(index)
    }

    // The index of the entries with this one behind them.
    fn index_more(&self, entry: &Entry) -> Result<Index, Memory>
        ensures { IfOk result (AreNoted (self.now ++ entry.now ∷ [])) }
    {
        let folded = self.folded()?;
        noting(self.allocator(), &folded, entry)
    }

    // The index of the entries with this one, in place of the one with its identifier if there is one.
    fn index_with(&self, entry: &Entry) -> Result<Index, Memory>
        ensures { IfOk result (λ index. (more : List EntryValue) → IsRising more → PutsEntry self.now more entry.now
            → AreNoted more index) }
    {
        let folded = self.folded()?;
        let alloc = self.allocator();
        match self.table.search(entry.id) {
            Ok(at) => renoted(alloc, &folded, self.table.at(at), entry),
            Err(_) => noting(alloc, &folded, entry),
        }
    }
}

// An index of the entries of a table.
fn index_of(table: &Table<SharedEntry>) -> Result<Index, Memory>
    ensures { IfOk result (AreNoted table.now.items) }
{
    let in_order = table.in_order()?;
    let notes = notes(table.allocator(), &in_order)?;
    drop(in_order);
    Index::of(table.allocator(), notes)
}
