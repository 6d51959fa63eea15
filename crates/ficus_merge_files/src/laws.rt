ghost use Rattle.std.specs.Prelude.{◌≡◌, ℕ, List};
ghost use Rattle.ficus_ids.specs.declared.id.Id.{Id};
ghost use Rattle.ficus_file.specs.Files.{IsRising};
ghost use Rattle.ficus_file.specs.declared.file.FileReplica.{FileReplica};
ghost use Rattle.ficus_file.specs.declared.version.Version.{Version};
ghost use Rattle.ficus_merge_files.specs.Counts.{MakeSoMany};
ghost use Rattle.ficus_merge_files.specs.Merge.{AreMergedFiles};
ghost use Rattle.ficus_merge_files.specs.News.{AreNew};
ghost use Rattle.ficus_merge_files.specs.Versions.{AreMerged};

/// The law that two lists of versions make exactly one list together, and so do two lists of files. It does nothing
/// when it runs.
pub fn one_merge()
    ensures versions { (mine theirs one other : List Version) →
        AreMerged mine theirs one → AreMerged mine theirs other → one ≡ other }
    ensures files { (held : List Id) (mine theirs one other : List FileReplica) →
        IsRising one → IsRising other →
        AreMergedFiles held mine theirs one → AreMergedFiles held mine theirs other → one ≡ other }
{}

/// The law that of the files of a peer one list is new to a replica, and that two lists of versions make one number
/// together. It does nothing when it runs.
pub fn one_news()
    ensures files { (mine theirs one other : List FileReplica) →
        AreNew mine theirs one → AreNew mine theirs other → one ≡ other }
    ensures count { (mine theirs : List Version) (one other : ℕ) →
        MakeSoMany mine theirs one → MakeSoMany mine theirs other → one ≡ other }
{}
