ghost use Rattle.ficus_view_laws.specs.Laws.{AcceptLeavesOne, MarkedIsNotDropped, MarkedOnce, RemovedIsMarked, StandsOnce};

/// A removed entry that a replica holds is marked with one pair of sets, and none that it has dropped is.
pub fn removed_are_marked()
    ensures held { MarkedIsNotDropped }
    ensures one { MarkedOnce }
    ensures all { RemovedIsMarked }
{}

/// An identifier stands at a member in one state, and what an Accept leaves under it is what the merge table makes of
/// what stood there and, when it served, at the server, and nothing else.
pub fn one_state()
    ensures stands { StandsOnce }
    ensures accepted { AcceptLeavesOne }
{}
