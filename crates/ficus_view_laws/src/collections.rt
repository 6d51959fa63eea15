ghost use Rattle.ficus_view_laws.specs.Laws.{CollectLeavesNothingFull, CollectLeavesTheNeeded, SecondCollectLeavesEntries, SecondCollectLeavesObjects};

/// After a collection its replica holds no entry of which it knows that everyone knows that everyone has heard, and
/// each object that it holds is an orphan, or an entry that it holds leads to it or lies in it.
pub fn collections_leave_what_is_needed()
    ensures entries { CollectLeavesNothingFull }
    ensures objects { CollectLeavesTheNeeded }
{}

/// A second collection straight behind one of the same member gives up nothing.
pub fn second_collections_give_nothing()
    ensures entries { SecondCollectLeavesEntries }
    ensures objects { SecondCollectLeavesObjects }
{}
