ghost use Rattle.std.specs.Prelude.{◌≡◌, ◌<◌, ◌==◌, length, slice_get, Some, IfOk};
ghost use Rattle.ficus_entry.specs.Entry.{IsRising};

use crate::{Entries, Entry, SharedEntry};
use ficus_ids::Memory;
use std::marker::Model;

/// All entries in the order of their identifiers, found in one walk: a look at one takes the same time wherever it
/// stands, however many there are.
#[derive(Drop)]
pub struct InOrder<'a> {
    rows: ficus_table::InOrder<'a, SharedEntry>,
}

impl<'a> Model for InOrder<'a> {
    ghost use Rattle.std.specs.Prelude.{List};
    ghost use Rattle.ficus_entry.specs.declared.entry.Entry.{Entry as EntryValue};

    ghost Value = { List EntryValue };

    ghost view = { λ o. o.rows };
}

impl<'a> InOrder<'a> {
    /// Entries that stand in no list, for lists to share, whose identifiers rise strictly. Takes no memory.
    pub fn of_rows(rows: &'a [SharedEntry]) -> InOrder<'a>
        requires { IsRising rows.now }
        ensures { result ≡ rows.now }
    {
        InOrder {
            rows: ficus_table::InOrder::of_rows(rows),
        }
    }

    /// How many entries there are.
    pub fn len(&self) -> usize
        ensures value { result ≡ length self.now }
        ensures rising { IsRising self.now }
    {
        self.rows.len()
    }

    /// Whether there are no entries.
    pub fn is_empty(&self) -> bool
        ensures { result ≡ (length self.now == 0) }
    {
        self.rows.is_empty()
    }

    /// The entry at a place, from 0. The place is below the length.
    pub fn at(&self, index: usize) -> &'a Entry
        requires { index < length self.now }
        ensures { slice_get self.now index ≡ Some result.now }
    {
        self.rows.at(index)
    }

    /// The rows of the entries, for a walk along them.
    pub fn rows(&self) -> &ficus_table::InOrder<'a, SharedEntry>
        ensures { result.now ≡ self.now }
    {
        &self.rows
    }
}

impl Entries {
    /// The entries in order.
    pub fn in_order(&self) -> Result<InOrder<'_>, Memory>
        ensures { IfOk result (λ entries. entries ≡ self.now) }
    {
        let rows = self.table.in_order()?;
        Ok(InOrder { rows })
    }
}
