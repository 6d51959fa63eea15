ghost use Rattle.ficus_removal_laws.specs.Laws.{KnowledgeIsDecided, LastIsHeard, PeersKnowledgeIsKnown, OneIsKnowledge, TwoIsKnowledge, OneOfItself, TwoOfItself};

/// A replica knows a position or it doesn't.
pub fn knowledge_is_decided()
    ensures { KnowledgeIsDecided }
{}

/// Who knows an event of a peer has heard of a last one, and knows all that the peer knew through the event.
pub fn last_is_heard()
    ensures last { LastIsHeard }
    ensures all { PeersKnowledgeIsKnown }
{}

/// The two sets of marks, which are read at the last known event of a peer, say the same as knowledge of
/// knowledge, which asks for any known event of it.
pub fn knowledge_has_two_readings()
    ensures one { OneIsKnowledge }
    ensures two { TwoIsKnowledge }
{}

/// A replica stands in its own first set exactly where it knows a removal, and in its own second set
/// exactly where its first set has every member.
pub fn own_marks_follow()
    ensures one { OneOfItself }
    ensures two { TwoOfItself }
{}
