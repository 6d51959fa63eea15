ghost use Rattle.std.specs.Prelude.{◌≡◌, Option};
ghost use Rattle.ficus_keeper.specs.Kept.{Kept};
ghost use Rattle.ficus_durable_state.specs.declared.saved.Saved.{Saved as SavedValue};
ghost use Rattle.ficus_stable_storage.specs.Leads.Holds.{Holds};

use crate::leads::one_led;

/// The law that what a keeper found holds one thing at most. It does nothing when it runs.
pub fn one_saved()
    ensures { (found : Option Kept) (m n : SavedValue) → Holds found m → Holds found n → m ≡ n }
{
    one_led();
}
