ghost use Rattle.std.specs.Prelude.{◌≡◌, ◌↔◌, [], Contains, IsTrue, IfOk, OnOk};
ghost use Rattle.ficus_ids.specs.Rising.{IsRisingBy};
ghost use Rattle.ficus_ids.specs.declared.id.Id.{Id as IdValue};
ghost use Rattle.ficus_reach.specs.Found.{IsTracked, Gains};
ghost use Rattle.ficus_reach.specs.Edge.{Edges};

use crate::edge::Edge;
use ficus_ids::{Id, Memory};
use std::alloc::Global;
use std::collections::BTreeSet;

/// Objects, each of them once, in the order in which they were found, and as a set.
#[derive(Drop)]
pub struct Found {
    pub order: Vec<Id>,
    pub set: BTreeSet<Id>,
}

impl Found {
    /// No objects.
    pub fn new(alloc: Global) -> Found
        ensures tracked { IsTracked result.set result.order.items }
        ensures empty { result.order.items ≡ [] }
    {
        Found {
            order: Vec::new(alloc),
            set: BTreeSet::new(alloc),
        }
    }

    /// Adds the object, unless it was found before. What is left after `Memory` is of no use.
    pub fn add(&mut self, object: Id) -> Result<(), Memory>
        requires { IsTracked self.old.set self.old.order.items }
        ensures tracked { OnOk result (IsTracked self.new.set self.new.order.items) }
        ensures gains { OnOk result (Gains self.old.order.items self.new.order.items (λ gained. gained ≡ object)) }
    {
        if self.set.insert(object)? {
            self.order.push(object)?;
        }
        Ok(())
    }

    /// Adds the objects to which the edges lead.
    pub fn add_targets(&mut self, edges: &[Edge]) -> Result<(), Memory>
        requires { IsTracked self.old.set self.old.order.items }
        ensures tracked { OnOk result (IsTracked self.new.set self.new.order.items) }
        ensures gains { OnOk result (Gains self.old.order.items self.new.order.items
            (λ gained. (dir : IdValue) × Edges edges.now dir gained)) }
    {
        for edge in edges {
            self.add(edge.target)?;
        }
        Ok(())
    }

    /// Adds the objects.
    pub fn add_all(&mut self, objects: &[Id]) -> Result<(), Memory>
        requires { IsTracked self.old.set self.old.order.items }
        ensures tracked { OnOk result (IsTracked self.new.set self.new.order.items) }
        ensures gains { OnOk result (Gains self.old.order.items self.new.order.items (Contains objects.now)) }
    {
        for object in objects {
            self.add(*object)?;
        }
        Ok(())
    }

    /// Whether the object was found.
    pub fn has(&self, object: Id) -> bool
        requires { IsTracked self.now.set self.now.order.items }
        ensures { IsTrue result ↔ Contains self.now.order.items object }
    {
        self.set.contains(&object)
    }

    /// The objects, rising.
    pub fn into_rising(self, alloc: Global) -> Result<Vec<Id>, Memory>
        requires { IsTracked self.set self.order.items }
        ensures rising { IfOk result (λ objects. IsRisingBy (λ (id : IdValue). id) objects.items) }
        ensures same { IfOk result (λ objects. (object : IdValue) →
            Contains objects.items object ↔ Contains self.order.items object) }
    {
        Ok(self.set.into_iter().collect(alloc)?)
    }
}
