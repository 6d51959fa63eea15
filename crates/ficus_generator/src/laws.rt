ghost use Rattle.std.specs.Prelude.{◌<◌, ◌≤◌, ◌^◌, ℕ};
ghost use Rattle.ficus_ids.specs.Members.{IsCount};
ghost use Rattle.ficus_generator.specs.Lines.{HasLines};

/// The law that each generated text is a script: its lines are the spellings of commands, four, one for each member but
/// the first, and one for each step. It does nothing when it runs.
pub fn lines_are_commands()
    ensures { (seed steps members : ℕ) → steps ≤ 5000 → IsCount members → HasLines seed steps members }
{}
