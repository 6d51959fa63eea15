ghost use Rattle.std.specs.Prelude.{◌≡◌, ℕ, List, IfOk, OnErr};
ghost use Rattle.ficus_entry.specs.declared.entry.Entry.{Entry as EntryValue};
ghost use Rattle.ficus_entry.specs.Run.{Takes, next_call};

use crate::{Entries, Entry};
use ficus_ids::Memory;
use std::marker::Model;

/// Entries that are read one by one. How many calls were made is counted, so that it can be said of who reads them how
/// often that is.
pub trait Run {
    /// The entries left.
    ghost left: { Self → List EntryValue };

    /// How many calls were made. The count stands still at 2^64 - 1.
    ghost calls: { Self → ℕ };

    /// A copy of the first entry left, which it takes away, or `None` exactly where none is left.
    fn next(&mut self) -> Result<Option<Entry>, Memory>
        ensures taken { IfOk result (Takes (left self.old) (left self.new)) }
        ensures kept { OnErr result (left self.new ≡ left self.old) }
        ensures counted { calls self.new ≡ next_call (calls self.old) };
}

/// The entries of a list, from the first on.
#[derive(Drop)]
pub struct EntriesRun<'a> {
    entries: &'a Entries,
    done: usize,
    calls: u64,
}

impl<'a> Model for EntriesRun<'a> {
    ghost use Rattle.std.specs.Prelude.{drop};
    ghost use Rattle.ficus_entry.specs.Run.{Reading};

    ghost Value = { Reading };

    ghost view = { λ r. record { left = drop r.done r.entries.now; calls = r.calls } };
}

impl<'a> Run for EntriesRun<'a> {
    ghost left = { λ run. run.left };

    ghost calls = { λ run. run.calls };

    fn next(&mut self) -> Result<Option<Entry>, Memory> {
        self.calls = self.calls.saturating_add(1);
        if self.done >= self.entries.len() {
            return Ok(None);
        }
        let entry = self.entries.at(self.done).copy()?;
        self.done += 1;
        Ok(Some(entry))
    }
}

impl Entries {
    /// The entries, to be read one by one, of which none was read yet. Takes no memory.
    pub fn run(&self) -> EntriesRun<'_>
        ensures left { result.left ≡ self.now }
        ensures calls { result.calls ≡ 0 }
    {
        EntriesRun {
            entries: self,
            done: 0,
            calls: 0,
        }
    }
}
