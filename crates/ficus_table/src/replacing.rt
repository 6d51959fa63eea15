ghost use Rattle.std.specs.Prelude.{◌≡◌, ◌↔◌, ◌<◌, ◌*◌, ◌++◌, [], map, IsTrue, OnOk, OnErr};
ghost use Rattle.std.specs.Option.{option_copied};
ghost use Rattle.ficus_ids.specs.Rising.{IsRisingBy, ReplacesBy};
ghost use Rattle.ficus_table.specs.SideBySide.{as_list};
ghost use Rattle.ficus_table.specs.Table.{ReplacesIn};

use crate::entire::Entire;
use crate::in_order::{each_of, rows_of};
use crate::table::putting;
use crate::{InOrder, Row, SideBySide, Table};
use ficus_ids::Memory;
use ficus_persistent::PersistentList;

/// Whether so many changes to a table of this count take longer one after the other than all rows anew: each makes a
/// way down the nodes anew, in which there are about as many as the count has binary digits.
pub fn are_many(changes: usize, count: usize) -> bool
    ensures { IsTrue result ↔ (count < 16 * changes) }
{
    count / 16 < changes
}

impl<R: Row> Table<R> {
    /// Adds rows, whose identifiers rise strictly, each in place of the one with its identifier if there is one. It
    /// takes time for a logarithm of the rows each, or, where they [`are_many`], for all rows once. After `Memory` the
    /// rows are as before.
    pub fn replace(&mut self, rows: &[R]) -> Result<(), Memory>
        requires { IsRisingBy (λ row. R.id_of (R.seen row)) rows.now }
        ensures replaced { OnOk result (ReplacesBy R.id_of self.old.items (map R.seen rows.now) self.new.items) }
        ensures edited { OnOk result (self.new.edited ≡ []) }
        ensures kept { OnErr result (self.new ≡ self.old) }
        ensures rising { IsRisingBy R.id_of self.new.items }
    {
        // Tells that the identifiers rise.
        let _count = self.len();
        let list = self.replaced(rows)?;
        self.hold(list)
    }

    // The rows with these ones, each in place of the one with its identifier.
    fn replaced(&self, rows: &[R]) -> Result<PersistentList<R>, Memory>
        requires { IsRisingBy (λ row. R.id_of (R.seen row)) rows.now }
        ensures { ReplacesIn R.id_of R.seen self.now.items rows.now result }
    {
        if self.is_empty() {
            // Spares the memory for a walk along both.
            return PersistentList::of(self.allocator(), rows);
        }
        if are_many(rows.len(), self.len()) {
            self.merged(rows)
        } else {
            self.put_each(rows)
        }
    }

    // The same, put in one after the other.
    fn put_each(&self, rows: &[R]) -> Result<PersistentList<R>, Memory>
        requires { IsRisingBy (λ row. R.id_of (R.seen row)) rows.now }
        ensures { ReplacesIn R.id_of R.seen self.now.items rows.now result }
    {
        let mut list = self.whole()?;
        for row in rows {
            list = putting(&list, self.allocator(), row.copied()?)?;
        }
        Ok(list)
    }

    // The same, built anew in one walk along both.
    fn merged(&self, rows: &[R]) -> Result<PersistentList<R>, Memory>
        requires { IsRisingBy (λ row. R.id_of (R.seen row)) rows.now }
        ensures { ReplacesIn R.id_of R.seen self.now.items rows.now result }
    {
        let alloc = self.allocator();
        let list = self.whole()?;
        let mine = InOrder::of(rows_of(alloc, &list)?);
        let theirs = InOrder::of(each_of(alloc, rows)?);
        let mut merged = Vec::with_capacity(alloc, mine.len().saturating_add(theirs.len()))?;
        merge(&mut merged, &mine, &theirs)?;
        PersistentList::of(alloc, &merged)
    }
}

// Puts the rows of both into an empty list, theirs where both have an identifier.
fn merge<R: Row>(
    merged: &mut Vec<R>,
    mine: &InOrder<'_, Entire<R>>,
    theirs: &InOrder<'_, Entire<R>>,
) -> Result<(), Memory>
    requires { merged.old.items ≡ [] }
    ensures replaced { OnOk result (ReplacesBy (λ row. R.id_of (R.seen row)) mine.now theirs.now merged.new.items) }
    ensures rising { OnOk result (IsRisingBy (λ row. R.id_of (R.seen row)) merged.new.items) }
{
    let mut walk = SideBySide::of(mine, theirs);
    while let Some(pair) = walk.next_pair() {
        push_copied(merged, pair.theirs.or(pair.mine))?;
    }
    Ok(())
}

// Puts a copy of the row, if there is one, behind the others.
fn push_copied<R: Row>(rows: &mut Vec<R>, row: Option<&R>) -> Result<(), Memory>
    ensures { OnOk result (rows.new.items ≡ rows.old.items ++ as_list (option_copied row.entry)) }
{
    if let Some(row) = row {
        rows.push(row.copied()?)?;
    }
    Ok(())
}
