//! A run follows from its commands and from what decides what becomes of what they ask of the outside.
ghost use Rattle.std.specs.Prelude.{◌≡◌, ℕ, List};
ghost use Rattle.ficus_model.specs.Lawful.{Volume};
ghost use Rattle.ficus_script.specs.declared.answer.Answer.{Answer};
ghost use Rattle.ficus_script.specs.declared.command.Command.{Command};
ghost use Rattle.ficus_runs.specs.Fuses.{Keeping, FuseState, FusesAllowAll};
ghost use Rattle.ficus_runs.specs.ModelWorld.{ModelWorld};
ghost use Rattle.ficus_runs.specs.Outcome.{Outcome, link_failures};
ghost use Rattle.ficus_runs.specs.Run.{Run, EachDone};
ghost use Rattle.ficus_runs.specs.Outcomes.{all_outcomes};

/// From one world the same commands with the same outcomes have the same answers, and lead to the same world.
pub fn one_run()
    ensures { (volume : Volume) (W after later : ModelWorld) (commands : List Command) (outcomes : List (List Outcome))
        (answers others : List Answer) → Run volume W commands outcomes answers after
        → Run volume W commands outcomes others later → (answers ≡ others) × (after ≡ later) }
{}

/// Where all that is asked of the outside is done, a run follows from its commands alone.
pub fn one_run_where_all_is_done()
    ensures { (volume : Volume) (W after later : ModelWorld) (commands : List Command)
        (outcomes other_outcomes : List (List Outcome)) (answers others : List Answer)
        → EachDone outcomes → EachDone other_outcomes → Run volume W commands outcomes answers after
        → Run volume W commands other_outcomes others later
        → (outcomes ≡ other_outcomes) × (answers ≡ others) × (after ≡ later) }
{}

/// Where the fuses of the members' disks decide what becomes of saves and openings, and the link never fails, a run
/// follows from its commands and from how the fuses stand before it.
pub fn one_run_by_fuses()
    ensures { (volume : Volume) (keeping : Keeping) (F : ℕ → FuseState) (W after later : ModelWorld)
        (commands : List Command) (outcomes other_outcomes : List (List Outcome)) (answers others : List Answer)
        → Run volume W commands outcomes answers after → Run volume W commands other_outcomes others later
        → FusesAllowAll keeping F (all_outcomes outcomes) → FusesAllowAll keeping F (all_outcomes other_outcomes)
        → link_failures (all_outcomes outcomes) ≡ 0 → link_failures (all_outcomes other_outcomes) ≡ 0
        → (outcomes ≡ other_outcomes) × (answers ≡ others) × (after ≡ later) }
{}
