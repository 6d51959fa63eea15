ghost use Rattle.std.specs.Prelude.{◌≢◌, List, Contains};
ghost use Rattle.ficus_ids.specs.declared.id.TheConstants.{ROOT, ATTIC};
ghost use Rattle.ficus_file.specs.Files.{AreFiles};
ghost use Rattle.ficus_file.specs.declared.file.FileReplica.{FileReplica};

/// The law that no file which a replica holds is the root or the attic. It does nothing when it runs.
pub fn held_are_issued()
    ensures root { (files : List FileReplica) (file : FileReplica) → AreFiles files → Contains files file
        → file.id ≢ ROOT }
    ensures attic { (files : List FileReplica) (file : FileReplica) → AreFiles files → Contains files file
        → file.id ≢ ATTIC }
{}
