ghost use Rattle.ficus_file_laws.specs.Laws.{ResolveShowsBytes, ResolvesMerge, TakenAlikeEndsConflict};

/// Resolves of a file to the same bytes end its conflict: each leaves its replica versions with these bytes alone, two
/// such lists make no two texts together, and where the one replica takes what the other has served the file isn't in
/// conflict.
pub fn resolved_alike_end_conflict()
    ensures shown { ResolveShowsBytes }
    ensures merged { ResolvesMerge }
    ensures taken { TakenAlikeEndsConflict }
{}
