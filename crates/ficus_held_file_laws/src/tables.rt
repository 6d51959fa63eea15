ghost use Rattle.ficus_held_file_laws.specs.Laws.{OneListOfEntries, OneListOfFiles, LiveEntriesAreListed, RemovedEntriesAreListed, ListedFilesAreKnown, NamedObjectsAreListed, OrphansAreListed, UnseenAreUncovered, FilesAreOfHistory};

/// A replica holds one list of entries and one of files after a history.
pub fn tables_are_one()
    ensures entries { OneListOfEntries }
    ensures files { OneListOfFiles }
{}

/// What tables show is what the history shows: the live entries; each removed one that is held, with the members that
/// are known to know of its removal and those that are known to know that all know; each object with a live name and
/// each orphan, with its kind, its versions, and whether one of them is uncovered. No number in them is of an update
/// that hasn't been made.
pub fn tables_show_history()
    ensures live { LiveEntriesAreListed }
    ensures removed { RemovedEntriesAreListed }
    ensures known { ListedFilesAreKnown }
    ensures named { NamedObjectsAreListed }
    ensures orphans { OrphansAreListed }
    ensures unseen { UnseenAreUncovered }
    ensures numbers { FilesAreOfHistory }
{}
