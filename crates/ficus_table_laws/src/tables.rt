ghost use Rattle.ficus_table_laws.specs.Laws.{EntriesExist, FilesExist};

/// After every lawful history there is a list of the entries that a replica holds, and one of the files, where the
/// members are from 2 to 8: a vector has as many counts.
pub fn tables_exist()
    ensures entries { EntriesExist }
    ensures files { FilesExist }
{}
