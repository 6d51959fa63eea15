use ficus_ids::{Id, Kind};

/// An object without a live name that is kept all the same: a directory with something in it, or a file with a version
/// that no removal covers.
#[derive(Clone, Copy, PartialEq, Eq)]
pub struct Orphan {
    pub id: Id,
    pub kind: Kind,
    /// It is a file in conflict.
    pub conflict: bool,
}
