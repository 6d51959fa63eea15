ghost use Rattle.ficus_final_laws.specs.Laws.{UsersSeeLife, OrphansAreInReach, RemoveUnbinds, MoveUnbinds};

/// An update that uses an object, by a version of it or an entry that leads to it or lies in it, makes the
/// object, or is by a replica for which the object was alive: it had a live entry of it, or an uncovered version.
pub fn users_see_life()
    ensures { UsersSeeLife }
{}

/// An orphan is in reach, so it can be written, filled and given a name.
pub fn orphans_are_in_reach()
    ensures { OrphansAreInReach }
{}

/// After a Remove or a Move of names of an object its replica has none of them: the directory no longer binds
/// the name to the object.
pub fn removed_names_are_gone()
    ensures remove { RemoveUnbinds }
    ensures moved { MoveUnbinds }
{}
