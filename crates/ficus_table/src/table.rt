ghost use Rattle.std.specs.Prelude.{◌≡◌, ◌≢◌, ◌≤◌, ◌<◌, ◌==◌, [], ◌∷◌, length, map, slice_get, slice_set};
ghost use Rattle.std.specs.Prelude.{◌++◌, vec_len, vec_capacity, Some, IfOk, IfErr, OnOk, OnErr, All, AllPairs};
ghost use Rattle.std.specs.declared.cmp.Ordering.TheVariants.{Less};
ghost use Rattle.ficus_ids.specs.Id.{id_cmp};
ghost use Rattle.std.specs.Option.{option_copied};
ghost use Rattle.ficus_ids.specs.Rising.{IsRisingBy, HoldsBy, HoldsUnderBy, IsFoundAtBy, IsPlaceBy};
ghost use Rattle.ficus_ids.specs.Rising.{Adds, PutsBy, LeavesOutBy};
ghost use Rattle.ficus_table.specs.Edits.{room_of};
ghost use Rattle.ficus_table.specs.Table.{HoldsFrom, IsEdited, KeepsId};

use crate::Row;
use crate::edit::{Edit, form_of, put};
use crate::in_order::copies_of;
use crate::search::search;
use ficus_ids::{Id, Memory};
use ficus_persistent::PersistentList;
use std::alloc::Global;
use std::marker::Model;

// The room for edits is a multiple of this, so that an insert into a copy finds room, and one block serves after the
// other.
const ROOM: usize = 4096;

/// Rows with different identifiers. Contracts see what they show, as a list in which the identifiers rise strictly, and
/// the indices of those that were edited since the table was copied or got another row. A copy shares what it has with
/// the table, and a change takes time for a logarithm of the rows alone. What is edited takes no memory: it stands
/// beside the rows, in room that an earlier call reserved.
#[derive(Drop)]
pub struct Table<R: Row> {
    pub(crate) list: PersistentList<R>,
    pub(crate) edits: Vec<Edit<R::Form>>,
}

impl<R: Row> Model for Table<R> {
    ghost use Rattle.ficus_table.specs.Table.{Rows};

    ghost Value = { Rows R.Seen };

    ghost use Rattle.ficus_table.specs.Edits.{overlaid, indices, IsSound};
    ghost use Rattle.std.specs.Prelude.{vec_capacity};

    ghost view = { λ t. record {
      items = overlaid R.formed R.seen t.edits.items t.list;
      edited = indices t.edits.items;
    } };

    ghost invariant = { λ t. IsSound R.id_of R.seen R.formed t.edits.items t.list (vec_capacity t.edits) };
}

impl<R: Row> Table<R> {
    /// No rows. Takes no memory.
    pub fn new(alloc: Global) -> Table<R>
        ensures items { result.items ≡ [] }
        ensures edited { result.edited ≡ [] }
    {
        Table {
            list: PersistentList::new(),
            edits: Vec::new(alloc),
        }
    }

    /// These rows, whose identifiers rise strictly. It takes less time than to put one after the other.
    pub fn of(alloc: Global, rows: &[R]) -> Result<Table<R>, Memory>
        requires { IsRisingBy (λ row. R.id_of (R.seen row)) rows.now }
        ensures items { IfOk result (λ table. table.items ≡ map R.seen rows.now) }
        ensures edited { IfOk result (λ table. table.edited ≡ []) }
    {
        let list = PersistentList::of(alloc, rows)?;
        Table::fresh(alloc, list)
    }

    /// How many rows there are.
    pub fn len(&self) -> usize
        ensures value { result ≡ length self.now.items }
        ensures rising { IsRisingBy R.id_of self.now.items }
    {
        self.list.len()
    }

    /// Whether there are no rows.
    pub fn is_empty(&self) -> bool
        ensures { result ≡ (length self.now.items == 0) }
    {
        self.len() == 0
    }

    /// What the row at a place in the order of identifiers shows, from 0. The place is below the length.
    pub fn at(&self, index: usize) -> &R::Seen
        requires { index < length self.now.items }
        ensures { slice_get self.now.items index ≡ Some result.now }
    {
        let row = self.list.at(index);
        match form_of(&self.edits, index) {
            None => row.look(),
            Some(form) => row.formed(form),
        }
    }

    /// The row at a place in the order of identifiers, from 0, as it stands: with what had become of it. Another table
    /// that takes it in shares with this one what copies of a row share. The place is below the length.
    pub fn row(&self, index: usize) -> Result<R, Memory>
        requires { index < length self.now.items }
        ensures { IfOk result (λ row. slice_get self.now.items index ≡ Some (R.seen row)) }
    {
        let row = self.list.at(index);
        match form_of(&self.edits, index) {
            None => row.copied(),
            Some(form) => row.reformed(self.allocator(), form),
        }
    }

    /// All rows in the order of identifiers, each as [`row`](Table::row) gives it.
    pub fn rows(&self) -> Result<Vec<R>, Memory>
        ensures rows { IfOk result (λ rows. map R.seen rows.items ≡ self.now.items) }
        ensures rising { IfOk result (λ rows. IsRisingBy (λ row. R.id_of (R.seen row)) rows.items) }
    {
        let list = self.whole()?;
        copies_of(self.allocator(), &list)
    }

    /// Where the row with the identifier is, or where one with it would go.
    pub fn search(&self, id: Id) -> Result<usize, usize>
        ensures found { IfOk result (IsFoundAtBy R.id_of self.now.items id) }
        ensures place { IfErr result (IsPlaceBy R.id_of self.now.items id) }
        ensures rising { IsRisingBy R.id_of self.now.items }
    {
        search(&self.list, id)
    }

    /// What the row with an identifier shows, or `None` exactly where no row has it.
    pub fn get(&self, id: Id) -> Option<&R::Seen>
        ensures found { HoldsUnderBy R.id_of self.now.items id (option_copied result) }
        ensures rising { IsRisingBy R.id_of self.now.items }
    {
        match self.search(id) {
            Ok(index) => Some(self.at(index)),
            Err(_) => None,
        }
    }

    /// How many rows were edited.
    pub fn edit_count(&self) -> usize
        ensures value { result ≡ length self.now.edited }
        ensures once { AllPairs (λ one other. one ≢ other) self.now.edited }
    {
        self.edits.len()
    }

    /// The index of one of the rows that were edited. The place is below their count.
    pub fn edited_at(&self, place: usize) -> usize
        requires { place < length self.now.edited }
        ensures { slice_get self.now.edited place ≡ Some result }
    {
        self.edits[place].index
    }

    /// A copy of the rows, which shares their nodes, with memory from where these have theirs.
    pub fn copy(&self) -> Result<Table<R>, Memory>
        ensures items { IfOk result (λ table. table.items ≡ self.now.items) }
        ensures edited { IfOk result (λ table. table.edited ≡ []) }
    {
        let list = self.whole()?;
        Table::fresh(self.allocator(), list)
    }

    /// Adds a row whose identifier no row has. After `Memory` the rows are as before.
    pub fn insert(&mut self, row: R) -> Result<(), Memory>
        requires { HoldsBy R.id_of self.old.items (R.id_of (R.seen row)) → ⊥ }
        ensures added { OnOk result (Adds self.old.items self.new.items (R.seen row)) }
        ensures edited { OnOk result (self.new.edited ≡ []) }
        ensures kept { OnErr result (self.new ≡ self.old) }
        ensures rising { IsRisingBy R.id_of self.new.items }
    {
        self.put(row)
    }

    /// Adds a row behind all others: its identifier is above theirs. After `Memory` the rows are as before.
    pub fn append(&mut self, row: R) -> Result<(), Memory>
        requires { All (λ item. id_cmp (R.id_of item) (R.id_of (R.seen row)) ≡ Less) self.old.items }
        ensures appended { OnOk result (self.new.items ≡ self.old.items ++ R.seen row ∷ []) }
        ensures edited { OnOk result (self.new.edited ≡ []) }
        ensures kept { OnErr result (self.new ≡ self.old) }
        ensures rising { IsRisingBy R.id_of self.new.items }
    {
        // Tells that the identifiers rise.
        let _count = self.len();
        let list = self.appending(row)?;
        self.hold(list)
    }

    /// Adds a row, in place of the one with its identifier if there is one. After `Memory` the rows are as before.
    pub fn put(&mut self, row: R) -> Result<(), Memory>
        ensures put { OnOk result (PutsBy R.id_of self.old.items self.new.items (R.seen row)) }
        ensures edited { OnOk result (self.new.edited ≡ []) }
        ensures kept { OnErr result (self.new ≡ self.old) }
        ensures rising { IsRisingBy R.id_of self.new.items }
    {
        // Tells that the identifiers rise.
        let _count = self.len();
        let list = self.with(row)?;
        self.hold(list)
    }

    /// The rows whose identifiers are none of these.
    pub fn without(&self, ids: &[Id]) -> Result<Table<R>, Memory>
        ensures left { IfOk result (λ table. LeavesOutBy R.id_of self.now.items ids.now table.items) }
        ensures edited { IfOk result (λ table. table.edited ≡ []) }
        ensures rising { IfOk result (λ table. IsRisingBy R.id_of table.items) }
    {
        let mut list = self.whole()?;
        for id in ids {
            list = removed(&list, self.allocator(), *id)?;
        }
        Table::fresh(self.allocator(), list)
    }

    /// Has the row at an index become this, in place of what it had become since the table was copied or got another
    /// row, which it gives back. The identifier stays. Takes no memory.
    pub fn edit(&mut self, index: usize, form: R::Form) -> Option<R::Form>
        requires within { index < length self.old.items }
        requires keeps { KeepsId R.id_of R.seen R.formed self.old.items index form }
        ensures edited { IsEdited R.seen R.formed self.old self.new index form result }
        ensures ids { map R.id_of self.new.items ≡ map R.id_of self.old.items }
        ensures rising { IsRisingBy R.id_of self.new.items }
    {
        put(&mut self.edits, Edit { index, form })
    }

    /// From where these have their memory.
    pub fn allocator(&self) -> Global {
        *self.edits.allocator()
    }

    // A table of the rows of a list.
    fn fresh(alloc: Global, list: PersistentList<R>) -> Result<Table<R>, Memory>
        requires { IsRisingBy (λ row. R.id_of (R.seen row)) list }
        ensures items { IfOk result (λ table. table.items ≡ map R.seen list) }
        ensures edited { IfOk result (λ table. table.edited ≡ []) }
        ensures rising { IfOk result (λ table. IsRisingBy R.id_of table.items) }
    {
        let edits = room_for(alloc, list.len())?;
        Ok(Table { list, edits })
    }

    // The rows with this one, in place of the one with its identifier if there is one.
    fn with(&self, row: R) -> Result<PersistentList<R>, Memory>
        ensures puts { IfOk result (λ more. PutsBy R.id_of self.now.items (map R.seen more) (R.seen row)) }
        ensures rising { IfOk result (IsRisingBy (λ one. R.id_of (R.seen one))) }
    {
        let list = self.whole()?;
        putting(&list, self.allocator(), row)
    }

    // The rows with this one behind them.
    fn appending(&self, row: R) -> Result<PersistentList<R>, Memory>
        requires { All (λ item. id_cmp (R.id_of item) (R.id_of (R.seen row)) ≡ Less) self.now.items }
        ensures appended { IfOk result (λ more. map R.seen more ≡ self.now.items ++ R.seen row ∷ []) }
        ensures rising { IfOk result (IsRisingBy (λ one. R.id_of (R.seen one))) }
    {
        let list = self.whole()?;
        list.insert(self.allocator(), list.len(), row)
    }

    /// The rows as they stand, with what had become of them, in a list that shares its nodes with the table.
    pub fn whole(&self) -> Result<PersistentList<R>, Memory>
        ensures same { IfOk result (λ list. map R.seen list ≡ self.now.items) }
        ensures rising { IfOk result (IsRisingBy (λ row. R.id_of (R.seen row))) }
    {
        let alloc = self.allocator();
        let mut list = self.list.copy()?;
        let mut left = self.edits.len();
        while left > 0 {
            left -= 1;
            let edit = &self.edits[left];
            let row = self.list.at(edit.index).reformed(alloc, &edit.form)?;
            list = list.put(alloc, edit.index, row)?;
        }
        Ok(list)
    }

    // Holds these rows from now on.
    pub(crate) fn hold(&mut self, list: PersistentList<R>) -> Result<(), Memory>
        requires { IsRisingBy (λ row. R.id_of (R.seen row)) list }
        ensures { HoldsFrom R.id_of (map R.seen list) self.old self.new result }
    {
        if list.len() > self.edits.capacity() {
            return self.hold_afresh(list);
        }
        self.edits.clear();
        self.list = list;
        Ok(())
    }

    // The same, with room that is made for it. Room that grew would be copied, and so take memory although nothing is
    // in it.
    fn hold_afresh(&mut self, list: PersistentList<R>) -> Result<(), Memory>
        requires { IsRisingBy (λ row. R.id_of (R.seen row)) list }
        ensures { HoldsFrom R.id_of (map R.seen list) self.old self.new result }
    {
        // Tells that the identifiers rise.
        let _count = self.len();
        *self = Table::fresh(self.allocator(), list)?;
        Ok(())
    }
}

// The list with this row, in place of the one with its identifier if there is one.
pub(crate) fn putting<R: Row>(
    list: &PersistentList<R>,
    alloc: Global,
    row: R,
) -> Result<PersistentList<R>, Memory>
    requires { IsRisingBy (λ one. R.id_of (R.seen one)) list.now }
    ensures puts { IfOk result (λ more. PutsBy R.id_of (map R.seen list.now) (map R.seen more) (R.seen row)) }
    ensures rising { IfOk result (IsRisingBy (λ one. R.id_of (R.seen one))) }
{
    match search(list, R::id(row.look())) {
        Ok(index) => list.put(alloc, index, row),
        Err(index) => list.insert(alloc, index, row),
    }
}

// The list without the row with the identifier, if there is one.
fn removed<R: Row>(
    list: &PersistentList<R>,
    alloc: Global,
    id: Id,
) -> Result<PersistentList<R>, Memory>
    requires { IsRisingBy (λ row. R.id_of (R.seen row)) list.now }
    ensures left { IfOk result (λ fewer.
        LeavesOutBy (λ row. R.id_of (R.seen row)) list.now (id ∷ []) fewer) }
    ensures rising { IfOk result (IsRisingBy (λ row. R.id_of (R.seen row))) }
{
    match search(list, id) {
        Ok(index) => list.remove(alloc, index),
        Err(_) => list.copy(),
    }
}

// Room for so many edits, and some more, made at once.
fn room_for<F>(alloc: Global, count: usize) -> Result<Vec<Edit<F>>, Memory>
    ensures items { IfOk result (λ edits. edits.items ≡ []) }
    ensures len { IfOk result (λ edits. vec_len edits ≡ 0) }
    ensures enough { IfOk result (λ edits. count ≤ vec_capacity edits) }
    ensures capacity { IfOk result (λ edits. vec_capacity edits ≡ room_of count) }
{
    let room = (count / ROOM).saturating_add(1).saturating_mul(ROOM);
    let edits = Vec::with_capacity(alloc, room)?;
    Ok(edits)
}
