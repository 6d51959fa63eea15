ghost use Rattle.std.specs.Prelude.{◌↔◌, Contains, IsTrue, IfOk};
ghost use Rattle.ficus_ids.specs.Rising.{IsRisingBy};
ghost use Rattle.ficus_ids.specs.declared.id.Id.{Id as IdValue};
ghost use Rattle.ficus_entry.specs.Inside.{IsNamedBy, IsNameFor, LeadsThere};

use crate::scan::{Asked, note_asked};
use crate::{Entries, Entry};
use ficus_ids::{Id, Memory};

impl Entries {
    /// The identifiers of the entries that lead to the object, live and removed ones, in order. It looks at each entry
    /// once.
    pub fn naming(&self, target: Id) -> Result<Vec<Id>, Memory>
        ensures entries { IfOk result (λ ids. (id : IdValue) → Contains ids.items id ↔ LeadsThere self.now target id) }
        ensures rising { IfOk result (λ ids. IsRisingBy (λ (id : IdValue). id) ids.items) }
    {
        let in_order = self.in_order()?;
        let mut ids = Vec::new(self.allocator());
        note_asked(&mut ids, &in_order, Asked::ToObject(target))?;
        Ok(ids)
    }

    /// Whether a live entry leads to the object. Takes no memory, and one walk over the entries.
    pub fn live_naming(&self, target: Id) -> bool
        ensures { IsTrue result ↔ IsNamedBy self.now target }
    {
        for index in 0..self.len() {
            if is_name_for(self.at(index), target) {
                return true;
            }
        }
        false
    }
}

fn is_name_for(entry: &Entry, object: Id) -> bool
    ensures { IsTrue result ↔ IsNameFor entry.now object }
{
    entry.is_live() && entry.target == object
}
