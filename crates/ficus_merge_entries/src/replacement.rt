ghost use Rattle.std.specs.Prelude.{◌≡◌, None, Some, IfOk, IfSome};
ghost use Rattle.std.specs.Option.{option_copied};
ghost use Rattle.ficus_entry.specs.declared.entry.State.{State};
ghost use Rattle.ficus_merge_entries.specs.Merge.{IsReplacement};

use crate::table::Taker;
use ficus_entry::{Entry, SharedEntry};
use ficus_ids::Memory;
use ficus_persistent::Item;
use ficus_table::RowPair;
use std::alloc::Global;

/// What the table makes of what stands at the taker and at a peer under one identifier, or nothing where it is what
/// stands at the taker. A row of the peer's that is taken as it is stands in no further memory.
#[tactic(auto, using(crate::proofs::Replacing::new_stays))]
pub(crate) fn replacement(
    alloc: Global,
    taker: Taker,
    next: RowPair<'_, SharedEntry>,
) -> Result<Option<SharedEntry>, Memory>
    requires { IfSome next.their_row (λ row. IfSome next.pair.theirs (λ theirs. row.now ≡ theirs.now)) }
    ensures { IfOk result (IsReplacement taker.number taker.members
        (option_copied next.entry.pair.mine) (option_copied next.entry.pair.theirs)) }
{
    match new_row(&next) {
        Some(row) => Ok(Some(row.copied()?)),
        None => shared(alloc, taker.replacement(next.pair.mine, next.pair.theirs)?),
    }
}

// The peer's row, where the peer alone has the entry, and it isn't removed: then the table takes it as it is.
fn new_row<'a>(next: &RowPair<'a, SharedEntry>) -> Option<&'a SharedEntry>
    requires { IfSome next.now.their_row (λ row. IfSome next.now.pair.theirs (λ theirs. row.now ≡ theirs.now)) }
    ensures mine { IfSome result (λ _. option_copied next.now.pair.mine ≡ None) }
    ensures theirs { IfSome result (λ row. option_copied next.now.pair.theirs ≡ Some row.now) }
    ensures live { IfSome result (λ row. row.now.state ≡ State.Live) }
{
    match (next.pair.mine, next.pair.theirs, next.their_row) {
        (None, Some(theirs), Some(row)) if theirs.is_live() => Some(row),
        _ => None,
    }
}

/// The entry, if there is one, as a row that tables share. `Memory` comes where the row wants memory.
pub(crate) fn shared(alloc: Global, entry: Option<Entry>) -> Result<Option<SharedEntry>, Memory>
    ensures { IfOk result (λ shared. shared ≡ entry) }
{
    match entry {
        Some(entry) => Ok(Some(SharedEntry::of(alloc, entry)?)),
        None => Ok(None),
    }
}
