ghost use Rattle.std.specs.Prelude.{◌≡◌, ℕ, List};
ghost use Rattle.ficus_model.specs.Lawful.{Volume};
ghost use Rattle.ficus_runs.specs.ModelWorld.{ModelWorld};
ghost use Rattle.ficus_runs.specs.Outcome.{Outcome};
ghost use Rattle.ficus_runs.specs.Run.{Run};
ghost use Rattle.ficus_top.specs.Graft.Answered.{Sent, answers_to, commands_to};
ghost use Rattle.ficus_top.specs.Graft.Crossing.{AreFew};
ghost use Rattle.ficus_top.specs.Graft.Route.{Ending, Route, Sending};
ghost use Rattle.ficus_script.specs.declared.volume_line.VolumeLine.{VolumeLine};

/// The law that a line has one route: its looks, and what comes after them. It does nothing when it runs.
pub fn one_route()
    ensures { (count : ℕ) (line : VolumeLine) (looks more : List Sending) (ending other : Ending) → AreFew count
        → Route count line looks ending → Route count line more other → (looks ≡ more) × (ending ≡ other) }
{}

/// The law that what was sent to a volume, with what became of it there, decides what the volume answered: whatever
/// else was sent to others. It does nothing when it runs.
pub fn same_sent_same_answers()
    ensures { (volume : Volume) (W after later : ModelWorld) (v : ℕ) (sent more : List Sent)
        (outcomes : List (List Outcome)) → commands_to v sent ≡ commands_to v more
        → Run volume W (commands_to v sent) outcomes (answers_to v sent) after
        → Run volume W (commands_to v more) outcomes (answers_to v more) later
        → (answers_to v sent ≡ answers_to v more) × (after ≡ later) }
{}
