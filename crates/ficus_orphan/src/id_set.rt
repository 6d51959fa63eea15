ghost use Rattle.std.specs.Prelude.{◌↔◌, Contains, IsTrue};
ghost use Rattle.ficus_ids.specs.declared.id.Id.{Id as IdValue};

use ficus_ids::Id;
use std::marker::Model;

/// A set of identifiers, of which one asks whether it has this one or that. Contracts see it as a list.
#[derive(Drop)]
pub struct IdSet {
    sorted: Vec<Id>,
}

impl Model for IdSet {
    ghost use Rattle.std.specs.Prelude.{List};
    ghost use Rattle.ficus_ids.specs.declared.id.Id.{Id as IdValue};

    ghost Value = { List IdValue };

    ghost use Rattle.std.specs.List.Sorted.{IsSorted};
    ghost use Rattle.ficus_ids.specs.Id.{id_cmp};

    ghost view = { λ s. s.sorted.items };

    ghost invariant = { λ s. IsSorted id_cmp s.sorted.items };
}

impl IdSet {
    /// The set of these identifiers, in whichever order they come. Takes no memory.
    pub fn of(mut ids: Vec<Id>) -> IdSet
        ensures { (id : IdValue) → Contains result id ↔ Contains ids.items id }
    {
        ids.sort_unstable();
        IdSet { sorted: ids }
    }

    /// Whether the set has the identifier. It takes time for a logarithm of them alone.
    pub fn has(&self, id: Id) -> bool
        ensures { IsTrue result ↔ Contains self.now id }
    {
        self.sorted.binary_search(&id).is_ok()
    }
}
