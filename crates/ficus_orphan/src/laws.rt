ghost use Rattle.std.specs.Prelude.{◌≡◌, List};
ghost use Rattle.ficus_entry.specs.declared.entry.Entry.{Entry};
ghost use Rattle.ficus_file.specs.declared.file.FileReplica.{FileReplica};
ghost use Rattle.ficus_file.specs.declared.orphan.Orphan.{Orphan};
ghost use Rattle.ficus_orphan.specs.Orphan.{AreOrphans};

/// The law that entries and files have one list of orphans. It does nothing when it runs.
pub fn one_list_of_orphans()
    ensures { (entries : List Entry) (files : List FileReplica) (one other : List Orphan)
        → AreOrphans entries files one → AreOrphans entries files other → one ≡ other }
{}
