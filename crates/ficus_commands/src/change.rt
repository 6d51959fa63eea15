use ficus_ids::{Id, Kind, Listed};
use ficus_path::Path;

/// A change for which a replica may be asked. Each is one operation, or is refused; the refusals come in the order in
/// which they stand here.
#[derive(Drop)]
pub enum Change {
    /// Makes a directory at the new path. Refused as the walk to the parent is; with `Exists` exactly where a live
    /// entry of the parent has the name; with `Spent` exactly where the replica has made all its updates.
    MkDir { path: Path },
    /// Makes an empty file of the kind, which isn't that of symbolic links, at the new path. Refused as `MkDir` is.
    Create { path: Path, kind: Kind },
    /// Makes a symbolic link with this text, which isn't empty, at the new path. It is never followed. Refused as the
    /// walk to the parent is; with `Exists` as `MkDir` is; with `TooLong` exactly where the text has more than 1,024
    /// bytes; with `Spent` as `MkDir` is; with `Quota` exactly where the replica may not write so many bytes more.
    Symlink { path: Path, text: Listed<u8> },
    /// Gives the file at the path this text. Refused as the walk is; with `IsDir` exactly where the object is a
    /// directory; with `IsLink` exactly where it is a symbolic link; with `Conflict` exactly where the file is in
    /// conflict; with `TooLong` exactly where the text has more than 16,384 bytes; with `Spent` as `MkDir` is; with
    /// `Quota` exactly where the replica may not write so many bytes more.
    Write { path: Path, text: Listed<u8> },
    /// Ends the conflict of the file at the path with this text. Refused as `Write` is, but with `NoConflict` exactly
    /// where the file isn't in conflict in place of `Conflict`.
    Settle { path: Path, text: Listed<u8> },
    /// Ends the conflict of the file at the path by what the resolver of its kind makes of its versions. Refused as
    /// `Settle` is by that text, and before the limits with `Declined` exactly where the resolver declines.
    Resolve { path: Path },
    /// Removes the name at the path from its object: all live entries of the directory that have this name and lead to
    /// this object. The versions of a file are covered; what lies in a directory stays. Refused as the walk is; with
    /// `NotEmpty` exactly where the object is a directory with a live entry in it, and every live name of it is the one
    /// to be removed; with `Spent` as `MkDir` is.
    Rm { path: Path },
    /// Gives the file at the path `from` the new path `path` as a further name. Refused as the walk along `from` is; as
    /// the walk to the parent of `path` is; with `IsDir` exactly where the object is a directory; with `Exists` and
    /// `Spent` as `MkDir` is.
    Ln { from: Path, path: Path },
    /// Gives the object at the path `from` the new path `path` in place of this name: it stays the same object, with
    /// what lies in it and with its versions. Refused as the walk along `from` is; as the walk to the parent of `path`
    /// is; with `IntoSelf` exactly where the object is a directory, and the new parent is it or lies below it; with
    /// `Exists` and `Spent` as `MkDir` is.
    Mv { from: Path, path: Path },
    /// Gives the orphan the new path `path` as its name. Refused with `NotOrphan` exactly where no orphan has this
    /// identifier; as the walk to the parent of `path` is; with `IntoSelf` exactly where the orphan is a directory, and
    /// the new parent is it or lies below it; with `Exists` and `Spent` as `MkDir` is.
    Adopt { orphan: Id, path: Path },
    /// Gives up the orphan, a file: all its versions are covered. Refused with `NotOrphan` as `Adopt` is; with `IsDir`
    /// exactly where the orphan is a directory, which stops being one when the entries in it are removed; with `Spent`
    /// as `MkDir` is.
    Discard { orphan: Id },
}
