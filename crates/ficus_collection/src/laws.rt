ghost use Rattle.std.specs.Prelude.{◌≡◌, ℕ, List};
ghost use Rattle.ficus_entry.specs.declared.entry.Entry.{Entry};
ghost use Rattle.ficus_file.specs.declared.file.FileReplica.{FileReplica};
ghost use Rattle.ficus_file.specs.declared.orphan.Orphan.{Orphan};
ghost use Rattle.ficus_collection.specs.declared.reclaiming.Reclaimed.{Reclaimed};
ghost use Rattle.ficus_collection.specs.Reclaim.{IsReclaimed};

/// The law that a collection has one answer: what it leaves and how much it gives up. It does nothing when it runs.
pub fn one_reclaim()
    ensures { (members : ℕ) (entries : List Entry) (files : List FileReplica) (orphans : List Orphan)
        (one other : Reclaimed) → IsReclaimed members entries files orphans one
        → IsReclaimed members entries files orphans other → one ≡ other }
{}
