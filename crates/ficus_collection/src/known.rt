ghost use Rattle.std.specs.Prelude.{◌↔◌, IsTrue, IfOk};
ghost use Rattle.ficus_collection.specs.Reclaim.{IsFullyKnown};
ghost use Rattle.ficus_collection.specs.Chosen.{AreOfKnown};

use ficus_entry::{Entries, State};
use ficus_ids::{Id, Members, Memory};
use std::alloc::Global;

/// The identifiers of the removed entries whose second set of marks has every member.
pub(crate) fn fully_known(
    alloc: Global,
    entries: &Entries,
    members: Members,
) -> Result<Vec<Id>, Memory>
    ensures { IfOk result (λ ids. AreOfKnown members entries.now ids.items) }
{
    let in_order = entries.in_order()?;
    let mut ids = Vec::new(alloc);
    for index in 0..in_order.len() {
        let entry = in_order.at(index);
        if is_fully_known(entry.state, members) {
            ids.push(entry.id)?;
        }
    }
    Ok(ids)
}

// Whether an entry in this state is removed and its second set of marks has every member.
fn is_fully_known(state: State, members: Members) -> bool
    ensures { IsTrue result ↔ IsFullyKnown members state }
{
    match state {
        State::Live => false,
        State::Dead { one: _, two } => two.is_full(members),
    }
}
