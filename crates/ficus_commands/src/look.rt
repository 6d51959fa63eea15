use ficus_path::Path;

/// A look for which a replica may be asked. It changes nothing; the refusals come in the order in which they stand
/// here.
#[derive(Drop)]
pub enum Look {
    /// The names in the directory at the path. Refused as the walk is; with `NotDir` exactly where the object is a
    /// file.
    Ls { path: Path },
    /// The text of the file at the path. Refused as the walk is; with `IsDir` exactly where the object is a directory;
    /// with `IsLink` exactly where it is a symbolic link; with `Conflict` exactly where the file is in conflict.
    Read { path: Path },
    /// The versions of the file at the path, in the order of vectors. Refused as the walk is; with `IsDir` exactly
    /// where the object is a directory; with `IsLink` exactly where it is a symbolic link.
    Versions { path: Path },
    /// The text of the symbolic link at the path. Refused as the walk is; with `NotLink` exactly where the object is
    /// none.
    ReadLink { path: Path },
    /// The names in each directory that is reached from the root. Never refused.
    Tree,
    /// What is in conflict: each name under which a directory has several objects, and each file in conflict that has a
    /// live name or is an orphan. Never refused.
    Conflicts,
    /// The orphans: the objects without a live name that are directories with something in them or files with a version
    /// that no removal covers. Never refused.
    Orphans,
    /// The directories with a live name that are reached neither from the root nor from an orphan. Never refused.
    Detached,
    /// The removed entries that the replica holds, each with what is known of its removal. Never refused. It tells of
    /// the replica and isn't part of its view: two that have heard of the same may hold different ones.
    Marks,
}
