ghost use Rattle.ficus_view_laws.specs.Laws.{DetachedLieInDetached, DetachedLieInNoOther};

/// A detached directory has a live name in a detached directory, and in no other: so what crossing renames cut off
/// hangs together, and no way leads into it.
pub fn detached_lie_in_detached()
    ensures some { DetachedLieInDetached }
    ensures each { DetachedLieInNoOther }
{}
