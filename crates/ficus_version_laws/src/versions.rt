ghost use Rattle.ficus_version_laws.specs.Laws.{OneShownOfEach, FewVersionsShown, VersionReplacesAll, VersionAdvances, VersionEndsConflict, OthersKeepVersions, VersionsAreOfFiles, MakeShowsFirst, MakeCoversNothing, ListsExist, CoversExist, FilesShowVersions};

/// Of each replica at most one version of a file is shown, so at most as many as there are members.
pub fn one_version_of_each()
    ensures one { OneShownOfEach }
    ensures few { FewVersionsShown }
{}

/// After a version event of a file its replica is shown this one version, over all that it knew. Any other
/// operation leaves the versions of the file.
pub fn update_replaces_versions()
    ensures shown { VersionReplacesAll }
    ensures advanced { VersionAdvances }
    ensures settled { VersionEndsConflict }
    ensures kept { OthersKeepVersions }
{}

/// Versions are of files. A file just made has one version, of its maker, and nothing of it is covered.
pub fn files_have_versions()
    ensures files { VersionsAreOfFiles }
    ensures first { MakeShowsFirst }
    ensures uncovered { MakeCoversNothing }
{}

/// Each file has a list of its shown versions and a cover, and where it is known the list isn't empty.
pub fn files_have_lists()
    ensures lists { ListsExist }
    ensures covers { CoversExist }
    ensures some { FilesShowVersions }
{}
