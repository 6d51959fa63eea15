ghost use Rattle.ficus_standing_laws.specs.Laws.{AlikeIsSameView, AlikeTablesShowSame};

/// After a lawful history of two to eight members two of them are alike exactly where what both know of it shows the
/// same: the names with their kinds, the names and files in conflict, the versions, the orphans and the detached
/// directories.
pub fn alike_is_same_view()
    ensures { AlikeIsSameView }
{}

/// So the answer of `Replica::alike`, which is over what both hold, is that of every lawful history for which both
/// stand.
pub fn alike_tables_show_same()
    ensures { AlikeTablesShowSame }
{}
