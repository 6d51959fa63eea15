ghost use Rattle.std.specs.Prelude.{◌≡◌, ℕ, List, Result};
ghost use Rattle.ficus_commands.specs.declared.change.Change.{Change};
ghost use Rattle.ficus_commands.specs.declared.look.Look.{Look};
ghost use Rattle.ficus_commands.specs.declared.told.Told.{Told};
ghost use Rattle.ficus_ids.specs.declared.refusal.Refusal.{Refusal};
ghost use Rattle.ficus_model.specs.Lawful.{Volume};
ghost use Rattle.ficus_model.specs.declared.event.Event.{Event};
ghost use Rattle.ficus_model.specs.declared.event.Op.{Op};
ghost use Rattle.ficus_rules.specs.Change.{ChangeRule};
ghost use Rattle.ficus_rules.specs.Laws.{EntriesAreWalked, ResolversAgree, ResolversAgreeLater, ResolversEndConflict};
ghost use Rattle.ficus_rules.specs.Look.{LookRule, TellsOfView};
ghost use Rattle.ficus_rules.specs.View.{SameShown, SameView, history_view};

/// After a history, a change has one answer.
pub fn one_change()
    ensures { (volume : Volume) (H : List Event) (replica : ℕ) (change : Change) (one other : Result Op Refusal)
        → ChangeRule (history_view volume H replica) change one
        → ChangeRule (history_view volume H replica) change other → one ≡ other }
{}

/// After a history, a look has one answer.
pub fn one_look()
    ensures { (volume : Volume) (H : List Event) (replica : ℕ) (look : Look) (one other : Result Told Refusal)
        → LookRule (history_view volume H replica) look one
        → LookRule (history_view volume H replica) look other → one ≡ other }
{}

/// Where the views of two replicas are the same, each change is answered alike.
pub fn same_view_same_change()
    ensures { (volume : Volume) (H : List Event) (replica other : ℕ) (change : Change) (answer : Result Op Refusal)
        → SameView (history_view volume H replica) (history_view volume H other)
        → ChangeRule (history_view volume H replica) change answer
        → ChangeRule (history_view volume H other) change answer }
{}

/// Where two replicas are shown the same, each look that tells of it is answered alike, whether or not they may still
/// make updates. `Marks` doesn't: it tells what a replica knows of removals.
pub fn same_shown_same_look()
    ensures { (volume : Volume) (H : List Event) (replica other : ℕ) (look : Look) (answer : Result Told Refusal)
        → TellsOfView look
        → SameShown (history_view volume H replica) (history_view volume H other)
        → LookRule (history_view volume H replica) look answer
        → LookRule (history_view volume H other) look answer }
{}

/// A walk to the entry at a path finds the object to which the whole path leads, and is refused as that walk is.
pub fn entries_are_walked()
    ensures { EntriesAreWalked }
{}

/// Two replicas that know the same version events of a file resolve it alike, at one time or one after the other: to
/// the same bytes, or both are declined. Where both have resolved it, the merge of what they then have of the file
/// isn't in conflict.
pub fn resolvers_agree()
    ensures agree { ResolversAgree }
    ensures later { ResolversAgreeLater }
    ensures merged { ResolversEndConflict }
{}
