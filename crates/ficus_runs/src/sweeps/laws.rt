ghost use Rattle.ficus_runs.specs.Sweeps.Laws.{SweepsAdd, SweepsGoThrough, SweepsSweep};

/// The law that after a sweep that met no refusal all members know the same updates, no removed entry is held, and each
/// object that is held has a live name or is an orphan. It does nothing when it runs.
pub fn sweeps_leave_all_swept()
    ensures { SweepsSweep }
{}

/// The law that a sweep that met no refusal adds three events for each of its pulls, beside the taking of pieces, and
/// one for each member. It does nothing when it runs.
pub fn sweeps_add()
    ensures { SweepsAdd }
{}

/// The law that a sweep meets no refusal where all members are up, none of what it asks of the outside fails, and the
/// link has room for its messages. What stops it is a full link alone, and that at a pull of its own: the steps in
/// front of it are done, and the link has no room for the message of its ask, or, once it has asked, for the pieces
/// that answer it. It does nothing when it runs.
pub fn sweeps_meet_no_refusal()
    ensures { SweepsGoThrough }
{}
