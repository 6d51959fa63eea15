ghost use Rattle.std.specs.Prelude.{◌≡◌, filter, IfOk};
ghost use Rattle.ficus_durable_state.specs.Saved.{FitsImage};
ghost use Rattle.ficus_rules.specs.Marks.{AreMarksIn};
ghost use Rattle.ficus_deciding.specs.Entries.{is_removed};
ghost use Rattle.ficus_deciding.specs.View.{tables_view};

use ficus_durable_state::Saved;
use ficus_entry::{Entry, InOrder};
use ficus_ids::Memory;
use std::alloc::Global;

/// The removed entries, in order, with what is known of their removals.
pub fn marks(alloc: Global, saved: &Saved) -> Result<Vec<Entry>, Memory>
    requires { FitsImage saved.now }
    ensures { IfOk result (λ marks. AreMarksIn (tables_view saved.now) marks.items) }
{
    let entries = saved.entries.in_order()?;
    removed_of(alloc, &entries)
}

// Those of the entries that are removed.
fn removed_of(alloc: Global, entries: &InOrder<'_>) -> Result<Vec<Entry>, Memory>
    ensures { IfOk result (λ removed. removed.items ≡ filter is_removed entries.now) }
{
    let mut removed = Vec::new(alloc);
    for index in 0..entries.len() {
        let entry = entries.at(index);
        if !entry.is_live() {
            removed.push(entry.copy()?)?;
        }
    }
    Ok(removed)
}
