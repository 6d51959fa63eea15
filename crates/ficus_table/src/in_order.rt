ghost use Rattle.std.specs.Prelude.{◌≡◌, ◌<◌, ◌==◌, length, map, slice_get, Some, IfOk, IfSome};
ghost use Rattle.ficus_ids.specs.Rising.{IsRisingBy};
ghost use Rattle.ficus_table.specs.Edits.{overlaid, AreBelow};

use crate::edit::Edit;
use crate::{Row, Table};
use ficus_ids::Memory;
use ficus_persistent::PersistentList;
use std::alloc::Global;
use std::marker::Model;

/// What all rows of a table show, in the order of their identifiers, found in one walk: a look at one takes the same
/// time wherever it stands, however many there are.
#[derive(Drop)]
pub struct InOrder<'a, R: Row> {
    held: Held<'a, R, R::Seen>,
}

// What is looked at: what rows show, by itself, or the rows of a table, or rows that stand in none.
#[derive(Drop)]
enum Held<'a, R, S> {
    Seen(Vec<&'a S>),
    Gathered(Vec<&'a R>),
    Rows(&'a [R]),
}

impl<'a, R: Row> Model for InOrder<'a, R> {
    ghost use Rattle.std.specs.Prelude.{List};
    ghost use Rattle.ficus_ids.specs.Rising.{IsRisingBy};
    ghost use Rattle.ficus_table.specs.InOrder.{shown};

    ghost Value = { List R.Seen };

    ghost view = { λ o. shown R.seen o.held };

    ghost invariant = { λ o. IsRisingBy R.id_of (shown R.seen o.held) };
}

impl<'a, R: Row> InOrder<'a, R> {
    /// What these rows show, whose identifiers rise strictly.
    pub(crate) fn of(seen: Vec<&'a R::Seen>) -> InOrder<'a, R>
        requires { IsRisingBy R.id_of (map (λ one. one.now) seen.items) }
        ensures { result ≡ map (λ one. one.now) seen.entry.items }
    {
        InOrder {
            held: Held::Seen(seen),
        }
    }

    // What the rows of a table show, whose identifiers rise strictly.
    fn gathered(rows: Vec<&'a R>) -> InOrder<'a, R>
        requires { IsRisingBy (λ row. R.id_of (R.seen row)) (map (λ row. row.now) rows.items) }
        ensures { result ≡ map R.seen (map (λ row. row.now) rows.entry.items) }
    {
        InOrder {
            held: Held::Gathered(rows),
        }
    }

    /// Rows that stand in no table, whose identifiers rise strictly.
    pub fn over(alloc: Global, rows: &'a [R::Seen]) -> Result<InOrder<'a, R>, Memory>
        requires { IsRisingBy R.id_of rows.now }
        ensures { IfOk result (λ in_order. in_order ≡ rows.now) }
    {
        Ok(InOrder::of(each_of(alloc, rows)?))
    }

    /// What rows show that stand in no table, whose identifiers rise strictly. A table may share them, by
    /// [`row`](InOrder::row). Takes no memory.
    pub fn of_rows(rows: &'a [R]) -> InOrder<'a, R>
        requires { IsRisingBy (λ row. R.id_of (R.seen row)) rows.now }
        ensures { result ≡ map R.seen rows.now }
    {
        InOrder {
            held: Held::Rows(rows),
        }
    }

    /// How many rows there are.
    pub fn len(&self) -> usize
        ensures value { result ≡ length self.now }
        ensures rising { IsRisingBy R.id_of self.now }
    {
        match &self.held {
            Held::Seen(seen) => seen.len(),
            Held::Gathered(rows) => rows.len(),
            Held::Rows(rows) => rows.len(),
        }
    }

    /// Whether there are no rows.
    pub fn is_empty(&self) -> bool
        ensures { result ≡ (length self.now == 0) }
    {
        self.len() == 0
    }

    /// What the row at a place shows, from 0. The place is below the length.
    pub fn at(&self, index: usize) -> &'a R::Seen
        requires { index < length self.now }
        ensures { slice_get self.now index ≡ Some result.now }
    {
        match &self.held {
            Held::Seen(seen) => seen[index],
            Held::Gathered(rows) => rows[index].look(),
            Held::Rows(rows) => row_at(rows, index).look(),
        }
    }

    /// All rows, if it was made [of rows](InOrder::of_rows).
    pub fn all_rows(&self) -> Option<&'a [R]>
        ensures { IfSome result (λ rows. map R.seen rows.now ≡ self.now) }
    {
        match &self.held {
            Held::Rows(rows) => Some(rows),
            _ => None,
        }
    }

    /// The row at a place, from 0, if there is one, and if it was made [of rows](InOrder::of_rows).
    pub fn row(&self, index: usize) -> Option<&'a R>
        ensures { IfSome result (λ row. slice_get self.now index ≡ Some (R.seen row.now)) }
    {
        match &self.held {
            Held::Rows(rows) => rows.get(index),
            _ => None,
        }
    }
}

impl<R: Row> Table<R> {
    /// What the rows show, in order.
    pub fn in_order(&self) -> Result<InOrder<'_, R>, Memory>
        ensures { IfOk result (λ rows. rows ≡ self.now.items) }
    {
        if self.edits.is_empty() {
            return Ok(InOrder::gathered(rows_of(self.allocator(), &self.list)?));
        }
        let mut seen = gathered(self.allocator(), &self.list)?;
        overlay(&mut seen, &self.list, &self.edits);
        Ok(InOrder::of(seen))
    }
}

fn row_at<R>(rows: &[R], index: usize) -> &R
    requires { index < length rows.now }
    ensures { slice_get rows.now index ≡ Some result.now }
{
    &rows[index]
}

/// The rows of a list, in order.
pub(crate) fn rows_of<R: Row>(alloc: Global, list: &PersistentList<R>) -> Result<Vec<&R>, Memory>
    ensures { IfOk result (λ rows. map (λ row. row.now) rows.items ≡ list.now) }
{
    let mut rows = Vec::with_capacity(alloc, list.len())?;
    list.gather(&mut rows)?;
    Ok(rows)
}

/// Copies of the rows of a list, in order.
pub(crate) fn copies_of<R: Row>(alloc: Global, list: &PersistentList<R>) -> Result<Vec<R>, Memory>
    ensures { IfOk result (λ copies. copies.items ≡ list.now) }
{
    let rows = rows_of(alloc, list)?;
    copied_each(alloc, &rows)
}

// A copy of each of the rows.
fn copied_each<R: Row>(alloc: Global, rows: &[&R]) -> Result<Vec<R>, Memory>
    ensures { IfOk result (λ copies. copies.items ≡ map (λ row. row.now) rows.now) }
{
    let mut copies = Vec::with_capacity(alloc, rows.len())?;
    for row in rows {
        copies.push(row.copied()?)?;
    }
    Ok(copies)
}

/// Each of the rows, to be looked at.
pub(crate) fn each_of<T>(alloc: Global, rows: &[T]) -> Result<Vec<&T>, Memory>
    ensures { IfOk result (λ each. map (λ row. row.now) each.items ≡ rows.now) }
{
    let mut each = Vec::with_capacity(alloc, rows.len())?;
    for row in rows {
        each.push(row)?;
    }
    Ok(each)
}

// What the rows of a list show, in order.
fn gathered<'a, R: Row>(
    alloc: Global,
    list: &'a PersistentList<R>,
) -> Result<Vec<&'a R::Seen>, Memory>
    ensures { IfOk result (λ seen. map (λ one. one.now) seen.items ≡ map R.seen list.now) }
{
    let rows = rows_of(alloc, list)?;
    looks_at(alloc, &rows)
}

// What each of the rows shows.
fn looks_at<'a, R: Row>(alloc: Global, rows: &[&'a R]) -> Result<Vec<&'a R::Seen>, Memory>
    ensures { IfOk result (λ seen. map (λ one. one.now) seen.items ≡ map R.seen (map (λ row. row.now) rows.now)) }
{
    let mut seen = Vec::with_capacity(alloc, rows.len())?;
    for row in rows {
        seen.push(row.look())?;
    }
    Ok(seen)
}

// Has what was edited stand in place of what it was.
fn overlay<'a, R: Row>(
    seen: &mut Vec<&'a R::Seen>,
    list: &'a PersistentList<R>,
    edits: &'a [Edit<R::Form>],
)
    requires list { map (λ one. one.now) seen.old.items ≡ map R.seen list.now }
    requires within { AreBelow edits.now (length list.now) }
    ensures { map (λ one. one.now) seen.new.items ≡ overlaid R.formed R.seen edits.now list.now }
{
    let mut left = edits.len();
    while left > 0 {
        left -= 1;
        let edit = &edits[left];
        seen[edit.index] = list.at(edit.index).formed(&edit.form);
    }
}
