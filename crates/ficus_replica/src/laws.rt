ghost use Rattle.std.specs.Prelude.{◌≡◌, ◌↔◌, ◌<◌, ◌-◌, ◌^◌, ◌++◌, ◌∷◌, [], ℕ, List, Result};
ghost use Rattle.ficus_durable_state.specs.Saved.{FitsImage};
ghost use Rattle.ficus_durable_state.specs.declared.saved.Saved.{Saved};
ghost use Rattle.ficus_commands.specs.declared.change.Change.{Change};
ghost use Rattle.ficus_commands.specs.declared.look.Look.{Look};
ghost use Rattle.ficus_commands.specs.declared.told.Told.{Told};
ghost use Rattle.ficus_ids.specs.declared.refusal.Refusal.{Refusal};
ghost use Rattle.ficus_model.specs.Known.{Knows};
ghost use Rattle.ficus_model.specs.Lawful.{Volume, IsLawful, MayCome};
ghost use Rattle.ficus_model.specs.View.{ViewSame};
ghost use Rattle.ficus_rules.specs.Alike.{AreAlike};
ghost use Rattle.ficus_rules.specs.View.{history_view};
ghost use Rattle.ficus_model.specs.declared.event.Event.{Event};
ghost use Rattle.ficus_replica.specs.Change.{ChangeGives, ChangeStands};
ghost use Rattle.ficus_replica.specs.Collect.{CollectGives, Garbage, IsGarbage};
ghost use Rattle.ficus_record.specs.declared.record.Record.{Record};
ghost use Rattle.ficus_replica.specs.Makes.{IsFit, Makes};
ghost use Rattle.ficus_replica.specs.Recording.{IsRecordOf};
ghost use Rattle.ficus_replica.specs.Look.{LookGives, LookStands};
ghost use Rattle.ficus_replica.specs.SavedOf.{IsSavedOf, StandsFor};
ghost use Rattle.ficus_replica.specs.declared.collect.Collected.{Collected};
ghost use Rattle.ficus_replica.specs.declared.replica.Next.{Next};
ghost use Rattle.ficus_replica.specs.declared.replica.Replica.{Replica};

/// A history has one saved record for a replica.
pub fn one_saved()
    ensures { (volume : Volume) (H : List Event) (replica : ℕ) (one other : Saved)
        → IsSavedOf volume H replica one → IsSavedOf volume H replica other → one ≡ other }
{}

/// A history has one replica of each number that stands for it.
pub fn one_replica()
    ensures { (volume : Volume) (H : List Event) (number : ℕ) (one other : Replica)
        → StandsFor volume H number one → StandsFor volume H number other → one ≡ other }
{}

/// What a look gives over what the replica holds, it gives after every lawful history for which the replica stands.
pub fn looks_stand()
    ensures { (replica : Replica) (look : Look) (result : Result Told Refusal) → LookGives replica look result
        → (volume : Volume) (H : List Event) → IsLawful volume H → StandsFor volume H replica.saved.me replica
        → LookStands volume H replica.saved.me look result }
{}

/// Two replicas that stand for a lawful history show alike by their views exactly where what both know of it shows the
/// same.
pub fn alike_stands()
    ensures { (volume : Volume) (H : List Event) (r s : ℕ) (one other : Replica) → IsLawful volume H
        → StandsFor volume H r one → StandsFor volume H s other
        → AreAlike (history_view volume H r) (history_view volume H s) ↔ ViewSame H (Knows H r) (Knows H s) }
{}

/// What a change gives over what the replica holds, it gives after every lawful history for which the replica
/// stands, and the next replica stands for the history with the update.
pub fn changes_stand()
    ensures { (replica : Replica) (change : Change) (result : Result Next Refusal)
        → FitsImage replica.saved → ChangeGives replica change result
        → (volume : Volume) (H : List Event) → IsLawful volume H → StandsFor volume H replica.saved.me replica
        → ChangeStands volume H replica.saved.me change result }
{}

/// What a replica holds allows one outcome of a collection.
pub fn one_collection()
    ensures { (old : Replica) (one other : Collected) → CollectGives old one → CollectGives old other → one ≡ other }
{}

/// After a history a collection of a replica gives up one number of entries and one of objects.
pub fn one_garbage()
    ensures { (members : ℕ) (H : List Event) (replica : ℕ) (one other : Garbage)
        → IsGarbage members H replica one → IsGarbage members H replica other → one ≡ other }
{}

/// Where a lawful history is followed by an event that may come, what the record of the event makes of what a replica
/// saves after the history is what it saves after the event.
pub fn records_stand()
    ensures { (volume : Volume) (H : List Event) (replica : ℕ) (event : Event) (noted : Record) (old new : Saved)
        → FitsImage old → IsLawful volume H → IsSavedOf volume H replica old → MayCome volume H event
        → IsRecordOf volume H replica event noted → Makes old noted new
        → IsSavedOf volume (H ++ event ∷ []) replica new }
{}

/// Where a lawful history is followed by an event that may come, the record of the event fits what a replica saves
/// after the history, as long as it may be saved once more: so the record is applied, and never found unfit.
pub fn records_fit()
    ensures { (volume : Volume) (H : List Event) (replica : ℕ) (event : Event) (noted : Record) (saved : Saved)
        → FitsImage saved → saved.generation < 2 ^ 63 - 1 → IsLawful volume H → IsSavedOf volume H replica saved
        → MayCome volume H event → IsRecordOf volume H replica event noted → IsFit saved noted }
{}
