ghost use Rattle.std.specs.Prelude.{◌≡◌, IfOk};
ghost use Rattle.ficus_entry.specs.Spelled.{entry_bytes};

use crate::Entry;
use ficus_ids::{Id, Memory};
use ficus_persistent::{Item, Spelled};
use ficus_table::Row;
use std::alloc::Global;
use std::marker::Model;
use std::rc::Rc;

/// An entry that several lists may hold, in the same memory. Contracts see the entry.
#[derive(Drop)]
pub struct SharedEntry {
    entry: Rc<Entry>,
}

impl Model for SharedEntry {
    ghost use Rattle.ficus_entry.specs.declared.entry.Entry.{Entry as EntryValue};

    ghost Value = { EntryValue };

    ghost view = { λ s. s.entry.value };
}

impl SharedEntry {
    /// An entry to share.
    pub fn of(alloc: Global, entry: Entry) -> Result<SharedEntry, Memory>
        ensures { IfOk result (λ shared. shared ≡ entry) }
    {
        let entry = Rc::new(alloc, entry)?;
        Ok(SharedEntry { entry })
    }

    /// The entry.
    pub fn entry(&self) -> &Entry
        ensures { result.now ≡ self.now }
    {
        self.entry.as_ref()
    }
}

impl Item for SharedEntry {
    fn copied(&self) -> Result<SharedEntry, Memory>
        ensures { IfOk result (λ shared. shared ≡ self.now) }
    {
        let entry = self.entry.clone()?;
        Ok(SharedEntry { entry })
    }
}

impl Spelled for SharedEntry {
    ghost spell = { entry_bytes };

    fn put(&self, out: &mut Vec<u8>) -> Result<(), Memory> {
        self.entry().put(out)
    }

    fn spelled_len(&self) -> usize {
        self.entry().spelled_len()
    }
}

impl Row for SharedEntry {
    type Seen = Entry;

    type Form = Entry;

    ghost seen = { λ shared. shared };

    ghost formed = { λ form shared. form };

    ghost id_of = { λ entry. entry.id };

    fn look(&self) -> &Entry {
        self.entry()
    }

    fn formed<'a>(&'a self, form: &'a Entry) -> &'a Entry {
        form
    }

    fn reformed(&self, alloc: Global, form: &Entry) -> Result<SharedEntry, Memory> {
        SharedEntry::of(alloc, form.copy()?)
    }

    fn id(item: &Entry) -> Id {
        item.id
    }
}
