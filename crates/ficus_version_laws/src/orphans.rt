ghost use Rattle.ficus_version_laws.specs.Laws.{ConflictsDifferInBytes, LinksNeverConflict, LinksNeverOrphan, OrphansHaveUncovered, UncoveredAreShown};

/// A file is in conflict exactly where two of its shown versions differ in bytes.
pub fn conflicts_differ_in_bytes()
    ensures { ConflictsDifferInBytes }
{}

/// A file is an orphan exactly where no live entry leads to it, and one of its shown versions isn't covered.
pub fn orphans_have_uncovered_versions()
    ensures listed { OrphansHaveUncovered }
    ensures shown { UncoveredAreShown }
{}

/// A symbolic link is never in conflict, and never an orphan.
pub fn links_stay()
    ensures settled { LinksNeverConflict }
    ensures kept { LinksNeverOrphan }
{}
