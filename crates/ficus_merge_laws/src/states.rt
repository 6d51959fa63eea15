ghost use Rattle.ficus_merge_laws.specs.Laws.{StatesStay, EnteredIsAlive, RemovedIsKilled, CollectGivesStates};

/// How the state of an entry at a replica follows the events that take nothing: it stays where the event is
/// another's or leaves the entry; what an update enters is alive; what it removes is dead, with the replica
/// alone in the first set and nobody in the second; and a Collect drops exactly what has a full second set.
pub fn states_follow_events()
    ensures stay { StatesStay }
    ensures entered { EnteredIsAlive }
    ensures removed { RemovedIsKilled }
    ensures collected { CollectGivesStates }
{}
