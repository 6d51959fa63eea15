//! What commands answer.
ghost use Rattle.std.specs.Prelude.{◌≡◌, ℕ, ◌<◌, List, Result, Err};
ghost use Rattle.ficus_ids.specs.Members.{IsMember};
ghost use Rattle.ficus_ids.specs.declared.refusal.Refusal.{Refusal};
ghost use Rattle.ficus_ids.specs.declared.refusal.Refusal.TheVariants.{BadMessage, Mixed, Stale};
ghost use Rattle.ficus_laws.specs.Laws.{KnowSameUpdates};
ghost use Rattle.ficus_model.specs.Lawful.{AnswersOpenAsk, HasTaken, IsLawful, Volume};
ghost use Rattle.ficus_model.specs.declared.event.Event.{Event};
ghost use Rattle.ficus_commands.specs.declared.look.Look.{Look};
ghost use Rattle.ficus_rules.specs.Alike.{AreAlike};
ghost use Rattle.ficus_rules.specs.Look.{TellsOfView};
ghost use Rattle.ficus_rules.specs.View.{history_view};
ghost use Rattle.ficus_script.specs.declared.answer.Answer.{Answer};
ghost use Rattle.ficus_script.specs.declared.command.Command.TheVariants.{Give as Gives, Pull as Pulls};
ghost use Rattle.ficus_runs.specs.Answers.{LookAnswer};
ghost use Rattle.ficus_runs.specs.Exchange.{ComesToTaking, IsOneState, Taking};
ghost use Rattle.ficus_runs.specs.ModelWorld.{ModelWorld};
ghost use Rattle.ficus_runs.specs.Run.{Does};
ghost use Rattle.ficus_runs.specs.Sequence.{Effect};

/// What is served in a pull is taken.
pub fn pulls_are_never_stale()
    ensures { (volume : Volume) (W : ModelWorld) (by to : ℕ) (left : Effect ModelWorld)
        → Does volume (Pulls by to) W (Err Stale) left → ⊥ }
{}

/// Taking a piece comes to one thing. It comes to something where the piece is one of an answer to the open ask, and of
/// one state with those that were taken before.
pub fn taking_comes_to_one_thing()
    ensures one { (volume : Volume) (H : List Event) (replica serve index pieces : ℕ) (one other : Taking)
        → ComesToTaking volume H replica serve index pieces one
        → ComesToTaking volume H replica serve index pieces other → one ≡ other }
    ensures some { (volume : Volume) (H : List Event) (replica serve index : ℕ) → IsMember volume.members replica
        → (answer : AnswersOpenAsk H serve replica) → IsOneState H replica serve → index < answer.pieces
        → (taking : Taking) × ComesToTaking volume H replica serve index answer.pieces taking }
    // All pieces that were taken are among those that are counted.
    ensures counted { (volume : Volume) (H : List Event) (replica serve piece : ℕ) → IsLawful volume H
        → (answer : AnswersOpenAsk H serve replica) → IsOneState H replica serve → HasTaken H replica piece
        → piece < answer.pieces }
{}

/// A pull takes pieces of one state: what it serves.
pub fn pulls_are_never_mixed()
    ensures { (volume : Volume) (W : ModelWorld) (by to : ℕ) (left : Effect ModelWorld)
        → Does volume (Pulls by to) W (Err Mixed) left → ⊥ }
{}

/// No message is bad: neither a give nor a pull is refused so.
pub fn no_message_is_bad()
    ensures give { (volume : Volume) (W : ModelWorld) (number : ℕ) (left : Effect ModelWorld)
        → Does volume (Gives number) W (Err BadMessage) left → ⊥ }
    ensures pull { (volume : Volume) (W : ModelWorld) (by to : ℕ) (left : Effect ModelWorld)
        → Does volume (Pulls by to) W (Err BadMessage) left → ⊥ }
{}

/// Replicas that know the same updates answer looks alike that tell of the view.
pub fn same_updates_answer_same()
    ensures { (volume : Volume) (H : List Event) (replica other : ℕ) (look : Look)
        (answer again : Result Answer Refusal) → KnowSameUpdates H replica other
        → TellsOfView look → LookAnswer (history_view volume H replica) look answer
        → LookAnswer (history_view volume H other) look again → answer ≡ again }
{}

/// Replicas that know the same updates are alike.
pub fn same_updates_are_alike()
    ensures { (volume : Volume) (H : List Event) (replica other : ℕ) → KnowSameUpdates H replica other
        → AreAlike (history_view volume H replica) (history_view volume H other) }
{}
