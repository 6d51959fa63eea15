ghost use Rattle.ficus_model.specs.Lawful.{IsLawful};
ghost use Rattle.ficus_model.specs.Held.{IsDropped};
ghost use Rattle.ficus_removal_laws.specs.Example.{drop_volume, drop_entry, drop_history};
ghost use Rattle.ficus_removal_laws.specs.Laws.{CollectDrops, DroppedIsInTwo, DroppedIsInOne, DroppedIsRemoved, LiveIsNotDropped, UnmarkedIsNotDropped, AbsentWasDropped, DroppedIsServed, AbsentIsFull, DroppedThereFills};

/// A Collect drops exactly the entries for which the second set of its replica is full, and no other event
/// drops any.
pub fn collect_drops_exactly()
    ensures { CollectDrops }
{}

/// Where a replica has dropped an entry, its second set is full, the first set of each member is full, and
/// each member knows a removal.
pub fn dropped_is_known_to_all()
    ensures two { DroppedIsInTwo }
    ensures one { DroppedIsInOne }
    ensures removed { DroppedIsRemoved }
{}

/// An entry that is alive for a member nobody has dropped, nor one for which the first set of a member isn't
/// full.
pub fn live_is_never_dropped()
    ensures live { LiveIsNotDropped }
    ensures unmarked { UnmarkedIsNotDropped }
{}

/// What it means that one of both doesn't hold an entry when an answer is taken. What the replica doesn't hold,
/// it has dropped exactly where it stands in the first set that the server then had; and what it has dropped,
/// the server knew to be removed. What the server didn't hold, it had dropped exactly where the replica's
/// first set is full; and what it had dropped has a full second set at the replica once the answer is taken.
pub fn absent_entries_are_explained()
    ensures here { AbsentWasDropped }
    ensures served { DroppedIsServed }
    ensures there { AbsentIsFull }
    ensures fills { DroppedThereFills }
{}

/// There are lawful histories in which an entry is dropped.
pub fn entries_are_dropped()
    ensures lawful { IsLawful drop_volume drop_history }
    ensures dropped { IsDropped 2 drop_history 1 drop_entry }
{}
