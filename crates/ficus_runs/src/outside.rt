//! What becomes of what commands ask of the outside.
ghost use Rattle.std.specs.Prelude.{◌≡◌, ◌≢◌, ℕ, Bool, List, Contains};
ghost use Rattle.ficus_model.specs.Lawful.{Volume};
ghost use Rattle.ficus_model.specs.declared.event.Event.{Event};
ghost use Rattle.ficus_script.specs.declared.answer.Answer.{Answer};
ghost use Rattle.ficus_script.specs.declared.command.Command.{Command};
ghost use Rattle.ficus_script.specs.declared.command.Command.TheVariants.{Stop as Stops};
ghost use Rattle.ficus_runs.specs.ModelWorld.{ModelWorld};
ghost use Rattle.ficus_runs.specs.Outcome.{Outcome, armings_in};
ghost use Rattle.ficus_runs.specs.Run.{Step, Run, EachDone};
ghost use Rattle.ficus_runs.specs.Start.{start};
ghost use Rattle.ficus_runs.specs.Outcomes.{all_outcomes, NothingFails};

/// Where neither the link nor the disks of a member ever fail, all that is asked of the outside is done: no restart
/// finds a pending event.
pub fn all_is_done_where_nothing_failed()
    ensures { (volume : Volume) (earlier : List Event) (members total : ℕ) (fused : List Bool) (commands : List Command)
        (outcomes : List (List Outcome)) (answers : List Answer) (W : ModelWorld)
        → Run volume (start earlier members total fused) commands outcomes answers W
        → NothingFails (all_outcomes outcomes) → EachDone outcomes }
{}

/// The disks of a member are armed by a stop of this member alone.
pub fn only_stops_arm()
    ensures step { (volume : Volume) (W after : ModelWorld) (command : Command) (outcomes : List Outcome)
        (answer : Answer) (r : ℕ) → Step volume W command outcomes answer after
        → ((calls pick : ℕ) → command ≢ Stops r calls pick) → armings_in r outcomes ≡ 0 }
    ensures run { (volume : Volume) (W after : ModelWorld) (commands : List Command) (outcomes : List (List Outcome))
        (answers : List Answer) (r : ℕ) → Run volume W commands outcomes answers after
        → armings_in r (all_outcomes outcomes) ≢ 0
        → (calls : ℕ) × (pick : ℕ) × Contains commands (Stops r calls pick) }
{}
