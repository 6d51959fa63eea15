//! What commands make of a history.
ghost use Rattle.std.specs.Prelude.{◌≡◌, ℕ, Bool, List, ◌++◌};
ghost use Rattle.ficus_model.specs.Final.{IsFinal};
ghost use Rattle.ficus_model.specs.Known.{Knows};
ghost use Rattle.ficus_model.specs.Lawful.{Volume, IsLawful};
ghost use Rattle.ficus_model.specs.Live.{ModelEntry, IsLive, IsRemoved};
ghost use Rattle.ficus_model.specs.declared.event.Event.{Event};
ghost use Rattle.ficus_script.specs.declared.answer.Answer.{Answer};
ghost use Rattle.ficus_script.specs.declared.command.Command.{Command};
ghost use Rattle.ficus_runs.specs.Exchange.{ServesAll};
ghost use Rattle.ficus_runs.specs.ModelWorld.{ModelWorld};
ghost use Rattle.ficus_runs.specs.Outcome.{Outcome};
ghost use Rattle.ficus_runs.specs.Run.{Run};
ghost use Rattle.ficus_runs.specs.Start.{start};

/// Commands leave a lawful history behind a lawful one, whatever they are.
pub fn runs_are_lawful()
    ensures { (volume : Volume) (earlier : List Event) (total : ℕ) (fused : List Bool) (commands : List Command)
        (outcomes : List (List Outcome)) (answers : List Answer) (W : ModelWorld) → IsLawful volume earlier
        → Run volume (start earlier volume.members total fused) commands outcomes answers W → IsLawful volume W.events }
{}

/// In a run each Serve has as many pieces as the tables of what its server saved have.
pub fn serves_have_all_pieces()
    ensures { (volume : Volume) (earlier : List Event) (total : ℕ) (fused : List Bool) (commands : List Command)
        (outcomes : List (List Outcome)) (answers : List Answer) (W : ModelWorld) → IsLawful volume earlier
        → Run volume (start earlier volume.members total fused) commands outcomes answers W → ServesAll volume W }
{}

/// What is given up in a run, or before it, is given up for good.
pub fn runs_are_final()
    ensures { (volume : Volume) (earlier : List Event) (total : ℕ) (fused : List Bool) (commands : List Command)
        (outcomes : List (List Outcome)) (answers : List Answer) (W : ModelWorld) → IsLawful volume earlier
        → Run volume (start earlier volume.members total fused) commands outcomes answers W
        → IsFinal volume.members W.events }
{}

/// Commands only add to what has happened.
pub fn runs_extend()
    ensures { (volume : Volume) (W after : ModelWorld) (commands : List Command) (outcomes : List (List Outcome))
        (answers : List Answer) → Run volume W commands outcomes answers after
        → (later : List Event) × (after.events ≡ W.events ++ later) }
{}

/// What a member knows to be removed is alive for it after no later command.
pub fn removed_stays_removed()
    ensures { (volume : Volume) (W after : ModelWorld) (commands : List Command) (outcomes : List (List Outcome))
        (answers : List Answer) (replica : ℕ) (entry : ModelEntry) → Run volume W commands outcomes answers after
        → IsRemoved W.events (Knows W.events replica) entry.id
        → IsLive after.events (Knows after.events replica) entry → ⊥ }
{}
