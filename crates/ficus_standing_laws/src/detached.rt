ghost use Rattle.ficus_standing_laws.specs.Laws.{DetachedLieInDetachedTables};

/// Over tables whose live entries lie in the root or in a directory of the list, each detached directory has a live
/// name in a detached directory.
pub fn detached_tables_hang_together()
    ensures { DetachedLieInDetachedTables }
{}
