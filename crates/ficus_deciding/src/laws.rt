ghost use Rattle.ficus_durable_state.specs.Saved.{FitsImage};
ghost use Rattle.ficus_durable_state.specs.declared.saved.Saved.{Saved};
ghost use Rattle.ficus_commands.specs.declared.change.Change.{Change};
ghost use Rattle.ficus_commands.specs.declared.look.Look.{Look};
ghost use Rattle.ficus_rules.specs.Change.{ChangeRule};
ghost use Rattle.ficus_rules.specs.Look.{LookRule};
ghost use Rattle.ficus_rules.specs.Rule.{Once};
ghost use Rattle.ficus_deciding.specs.View.{tables_view};

/// Over tables that fit, a change has one answer.
pub fn one_change()
    ensures { (saved : Saved) (change : Change) → FitsImage saved → Once (ChangeRule (tables_view saved) change) }
{}

/// Over tables that fit, a look has one answer.
pub fn one_look()
    ensures { (saved : Saved) (look : Look) → FitsImage saved → Once (LookRule (tables_view saved) look) }
{}
