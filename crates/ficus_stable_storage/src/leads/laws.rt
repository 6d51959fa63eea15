ghost use Rattle.std.specs.Prelude.{◌≡◌, ℕ, List, Option};
ghost use Rattle.ficus_keeper.specs.Kept.{Kept};
ghost use Rattle.ficus_stable_storage.specs.Leads.Holds.{Holds, Leads};
ghost use Rattle.ficus_record.specs.declared.record.Record.{Record};
ghost use Rattle.ficus_replica.specs.Makes.{Makes};
ghost use Rattle.ficus_durable_state.specs.Saved.{FitsImage};
ghost use Rattle.ficus_durable_state.specs.declared.saved.Saved.{Saved};

use crate::change::one_change;
use ficus_merge_entries::one_merge;

/// The laws that a record makes one thing of what was saved, so that applying the record of an event gives what the
/// call gave; that bytes lead to one thing from what was saved; and that what a keeper found holds one thing at most.
/// It does nothing when it runs.
pub fn one_led()
    ensures made { (old one other : Saved) (noted : Record) → FitsImage old → Makes old noted one
        → Makes old noted other → one ≡ other }
    ensures led { (bytes : List ℕ) (old one other : Saved) → FitsImage old → Leads bytes old one
        → Leads bytes old other → one ≡ other }
    ensures held { (found : Option Kept) (one other : Saved) → Holds found one → Holds found other → one ≡ other }
{
    one_change();
    one_merge();
}
