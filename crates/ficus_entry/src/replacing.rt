ghost use Rattle.std.specs.Prelude.{◌≡◌, IfOk, OnOk};
ghost use Rattle.ficus_entry.specs.Entry.{IsRising, ReplacesEntries};

use crate::{Entries, SharedEntry};
use ficus_ids::Memory;
use ficus_persistent::Item;
use ficus_table::are_many;

impl Entries {
    /// The entries with others, whose identifiers rise strictly, each in place of the one with its identifier if there
    /// is one. It takes time for a logarithm of the entries for each of the others, or, where these
    /// [`are_many`](ficus_table::are_many), for all entries once; what the index was is given up before it is made
    /// anew.
    pub fn replaced(self, others: &[SharedEntry]) -> Result<Entries, Memory>
        requires { IsRising others.now }
        ensures replaced { IfOk result (ReplacesEntries self others.now) }
        ensures rising { IfOk result IsRising }
    {
        if are_many(others.len(), self.len()) {
            self.replaced_at_once(others)
        } else {
            self.replaced_in_turn(others)
        }
    }

    // The same, in one walk along the entries.
    fn replaced_at_once(self, others: &[SharedEntry]) -> Result<Entries, Memory>
        requires { IsRising others.now }
        ensures replaced { IfOk result (ReplacesEntries self others.now) }
        ensures rising { IfOk result IsRising }
    {
        let Entries { table, index } = self;
        drop(index);
        let mut table = table;
        table.replace(others)?;
        Entries::indexed(table)
    }

    // The same, one after the other.
    fn replaced_in_turn(self, others: &[SharedEntry]) -> Result<Entries, Memory>
        requires { IsRising others.now }
        ensures replaced { IfOk result (ReplacesEntries self others.now) }
        ensures rising { IfOk result IsRising }
    {
        let mut entries = self;
        entries.put_each(others)?;
        Ok(entries)
    }

    // Puts these in one after the other.
    fn put_each(&mut self, others: &[SharedEntry]) -> Result<(), Memory>
        requires { IsRising others.now }
        ensures replaced { OnOk result (ReplacesEntries self.old others.now self.new) }
        ensures rising { OnOk result (IsRising self.new) }
    {
        // Tells that the identifiers rise.
        let _count = self.len();
        for other in others {
            self.put_shared(other.copied()?)?;
        }
        Ok(())
    }
}
