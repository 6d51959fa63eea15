ghost use Rattle.ficus_model.specs.Events.{before};
ghost use Rattle.ficus_model.specs.Known.{Knows};
ghost use Rattle.ficus_model.specs.Lawful.{IsLawful};
ghost use Rattle.ficus_model.specs.Versions.{IsInConflict};
ghost use Rattle.ficus_model.specs.View.{IsOrphan};
ghost use Rattle.ficus_model.specs.Held.{IsDropped, IsDone};
ghost use Rattle.ficus_final_laws.specs.Examples.{example_file, done_volume, done_history, conflict_volume, conflict_history};

/// There are lawful histories of two members in which an entry is dropped, its file is done, and an answer is
/// taken afterwards.
pub fn files_are_done()
    ensures lawful { IsLawful done_volume done_history }
    ensures dropped { IsDropped 2 done_history 1 example_file }
    ensures done { IsDone 2 done_history 1 example_file 8 }
{}

/// There are lawful histories of two members in which a file is in conflict, it is settled, and it is an orphan
/// for one that hears of a removal which hadn't heard of the settled version.
pub fn files_are_orphans()
    ensures lawful { IsLawful conflict_volume conflict_history }
    ensures conflict { IsInConflict (before 9 conflict_history) (Knows (before 9 conflict_history) 1) example_file }
    ensures settled { IsInConflict (before 10 conflict_history) (Knows (before 10 conflict_history) 1) example_file
        → ⊥ }
    ensures orphan { IsOrphan conflict_history (Knows conflict_history 1) example_file }
{}
