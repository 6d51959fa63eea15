ghost use Rattle.ficus_command_laws.specs.Laws.{LooksChangeNothing, SecondCollectsNothing, WasAlive};

/// A look, a comparison of two members and why change nothing and ask nothing of the outside.
pub fn looks_change_nothing()
    ensures { LooksChangeNothing }
{}

/// A collection that is answered straight behind one of the same member gives up nothing.
pub fn second_collects_nothing()
    ensures { SecondCollectsNothing }
{}

/// Nothing removed returns: what a member had heard of before some commands and has alive after them it had alive
/// before them.
pub fn what_is_alive_was_alive()
    ensures { WasAlive }
{}
