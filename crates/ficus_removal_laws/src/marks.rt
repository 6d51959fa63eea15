ghost use Rattle.ficus_removal_laws.specs.Laws.{RemoveTakes, MoveTakes, DiscardTakes, KeepsMarks, RemovalBegins, RemovedIsEntered, RemovalsAreKnown, AcceptJoinsEntered, AcceptJoinsRemoved, AcceptHearsLater, AcceptJoinsOne, AcceptJoinsTwo};

/// What is alive for a replica after a removal of its own: after a Remove what was, but for the entries that
/// it names; after a Move the same and the entry that it enters; after a Discard what was.
pub fn removals_take_effect()
    ensures remove { RemoveTakes }
    ensures moved { MoveTakes }
    ensures discard { DiscardTakes }
{}

/// An event of another replica leaves all marks of an entry as they are, and so does an event of the replica's
/// own that takes nothing and doesn't remove the entry.
pub fn marks_stay()
    ensures { KeepsMarks }
{}

/// After a Remove, a Move or a Discard its replica holds each entry that it removes, with itself alone in the
/// first set and nobody in the second. There are two members or more.
pub fn removal_begins()
    ensures { RemovalBegins }
{}

/// Who knows a removal knows the entry, and who knows that a replica knows one knows each removal of the
/// entry by that replica.
pub fn removals_are_told()
    ensures entered { RemovedIsEntered }
    ensures known { RemovalsAreKnown }
{}

/// After an Accept its replica has heard of each other replica the later of what it and the server had heard.
/// So the other stands in a set of marks exactly where it stood in that of the replica or of the server. Where
/// the replica itself stands, the entries and removals that it then knows tell.
pub fn accept_joins_marks()
    ensures entered { AcceptJoinsEntered }
    ensures removed { AcceptJoinsRemoved }
    ensures heard { AcceptHearsLater }
    ensures one { AcceptJoinsOne }
    ensures two { AcceptJoinsTwo }
{}
