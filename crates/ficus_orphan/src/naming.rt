ghost use Rattle.std.specs.Prelude.{◌↔◌, Contains, IfOk};
ghost use Rattle.ficus_ids.specs.declared.id.Id.{Id as IdValue};
ghost use Rattle.ficus_entry.specs.Inside.{IsNamedBy};

use crate::IdSet;
use ficus_entry::{Entries, InOrder};
use ficus_ids::{Id, Memory};
use std::alloc::Global;

/// The objects to which live entries lead, found in one walk over the entries.
pub fn named(alloc: Global, entries: &Entries) -> Result<IdSet, Memory>
    ensures { IfOk result (λ named. (object : IdValue) → Contains named object ↔ IsNamedBy entries.now object) }
{
    let in_order = entries.in_order()?;
    let targets = targets_of(alloc, &in_order)?;
    Ok(IdSet::of(targets))
}

// The objects to which the live entries lead, one for each.
fn targets_of(alloc: Global, entries: &InOrder<'_>) -> Result<Vec<Id>, Memory>
    ensures { IfOk result (λ targets. (object : IdValue) →
        Contains targets.items object ↔ IsNamedBy entries.now object) }
{
    let mut targets = Vec::new(alloc);
    for index in 0..entries.len() {
        let entry = entries.at(index);
        if entry.is_live() {
            targets.push(entry.target)?;
        }
    }
    Ok(targets)
}
