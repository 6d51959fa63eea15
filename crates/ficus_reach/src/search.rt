ghost use Rattle.std.specs.Prelude.{◌≡◌, ◌↔◌, Contains, IsTrue, IfOk, OnOk};
ghost use Rattle.ficus_ids.specs.Rising.{IsRisingBy};
ghost use Rattle.ficus_ids.specs.declared.id.Id.{Id as IdValue};
ghost use Rattle.ficus_model.specs.Reached.{IsReached};
ghost use Rattle.ficus_reach.specs.Found.{IsTracked};
ghost use Rattle.ficus_reach.specs.Leads.{LeadsIn};
ghost use Rattle.ficus_reach.specs.Edge.{Edges, IsSortedByDir};

use crate::edge::{Edge, edges_from, edges_of};
use crate::found::Found;
use ficus_entry::Entries;
use ficus_ids::{Id, Memory};
use std::alloc::Global;

/// The objects that are reached from the given ones along the live entries, rising: the given ones, and
/// whatever a live entry names whose directory is reached.
pub fn reached(alloc: Global, entries: &Entries, from: &[Id]) -> Result<Vec<Id>, Memory>
    ensures rising { IfOk result (λ objects. IsRisingBy (λ (id : IdValue). id) objects.items) }
    ensures exact { IfOk result (λ objects. (object : IdValue) →
        Contains objects.items object ↔ IsReached (LeadsIn entries.now) (Contains from.now) object) }
{
    found_from(alloc, entries, from)?.into_rising(alloc)
}

/// Whether the object is the directory or is reached from it along the live entries.
pub fn below(alloc: Global, entries: &Entries, dir: Id, object: Id) -> Result<bool, Memory>
    ensures { IfOk result (λ is. IsTrue is ↔ IsReached (LeadsIn entries.now) (λ base. base ≡ dir) object) }
{
    let found = found_from(alloc, entries, &[dir])?;
    Ok(found.has(object))
}

// The same objects as in `reached`, as they are found.
fn found_from(alloc: Global, entries: &Entries, from: &[Id]) -> Result<Found, Memory>
    ensures tracked { IfOk result (λ found. IsTracked found.set found.order.items) }
    ensures exact { IfOk result (λ found. (object : IdValue) →
        Contains found.order.items object ↔ IsReached (LeadsIn entries.now) (Contains from.now) object) }
{
    let edges = edges_of(alloc, entries)?;
    let mut found = Found::new(alloc);
    found.add_all(from)?;
    follow(&edges, &mut found)?;
    Ok(found)
}

// Adds what is reached along the edges. Each object that is found is a place from which to go on, once.
fn follow(edges: &[Edge], found: &mut Found) -> Result<(), Memory>
    requires sorted { IsSortedByDir edges.now }
    requires tracked { IsTracked found.old.set found.old.order.items }
    ensures tracked { OnOk result (IsTracked found.new.set found.new.order.items) }
    ensures reached { OnOk result ((object : IdValue) → Contains found.new.order.items object
        ↔ IsReached (Edges edges.now) (Contains found.old.order.items) object) }
{
    let mut next = 0;
    while next < found.order.len() {
        let dir = found.order[next];
        found.add_targets(edges_from(edges, dir))?;
        next += 1;
    }
    Ok(())
}
