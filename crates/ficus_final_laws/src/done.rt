ghost use Rattle.ficus_final_laws.specs.Laws.{Finality, DoneIsKnown, UsesAreKnown, CollectGivesUp};

/// What is given up is given up for good. Where an object is done, its collector knew every version of it, past
/// and to come, and no member has a live name of it; and a removal of each entry that is dropped anywhere is
/// known to every member.
pub fn finality()
    ensures { Finality }
{}

/// Where a member has an object done, it knew by then each use of the object, past and to come, and every
/// member knew its Make, each version of it, each Remove and Discard of it, and a removal of each entry that
/// leads to it or lies in it.
pub fn done_is_known_to_all()
    ensures all { DoneIsKnown }
    ensures uses { UsesAreKnown }
{}

/// An object stays done. A Collect gives up exactly the known objects of which each known entry is dropped by
/// then and that are no orphans, and no other event gives any up.
pub fn collect_gives_up_exactly()
    ensures { CollectGivesUp }
{}
