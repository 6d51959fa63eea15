ghost use Rattle.ficus_held_laws.specs.ObjectLaws.{KeptIsNotDone, HeldObjectsAreListed, NoObjectsAtStart, OthersKeepObjects, UpdateStepsObjects, CollectLeavesObjects, AcceptMergesObjects};

/// No object is kept that is done. A list of the objects that a replica keeps has each that it holds, with its
/// kind; at the start it is empty.
pub fn kept_objects_stand()
    ensures undone { KeptIsNotDone }
    ensures listed { HeldObjectsAreListed }
    ensures start { NoObjectsAtStart }
{}

/// After an event of another replica, and after one that is no update, takes nothing and doesn't collect, a
/// replica keeps the objects that it kept, with their versions and covers.
pub fn others_keep_objects()
    ensures { OthersKeepObjects }
{}

/// After an update its replica keeps the objects that it kept and the one that the update makes. A version event
/// of a file leaves it one version, over all that were shown; a Remove or a Discard of an object covers what is
/// shown of it; nothing else changes.
pub fn update_steps_objects()
    ensures { UpdateStepsObjects }
{}

/// After a Collect its replica keeps, of the objects that it kept, exactly those to which an entry that it then
/// keeps leads or in which one lies, and the orphans.
pub fn collect_leaves_objects()
    ensures { CollectLeavesObjects }
{}

/// Where an answer is taken, its replica keeps all objects that it kept. Of one that both kept the versions are the
/// latest of both and the covers are joined. One that the server alone kept is taken exactly where an entry that the
/// replica then keeps leads to it or lies in it.
pub fn accept_merges_objects()
    ensures { AcceptMergesObjects }
{}
