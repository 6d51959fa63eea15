use ficus_entry::Entry;
use ficus_file::{Orphan, Version};
use ficus_ids::{Id, Listed, Members};
use ficus_names::{Clashes, Line};

/// What a look tells.
#[derive(Drop)]
pub enum Told {
    /// The text of a file or of a symbolic link.
    Text(Listed<u8>),
    /// The names in a directory.
    Names(Listed<Line>),
    /// The names in each directory that was reached, by directory.
    Tree(Listed<Line>),
    /// The versions of a file of a volume with these members.
    Versions {
        members: Members,
        list: Listed<Version>,
    },
    /// What is in conflict.
    Conflicts(Clashes),
    /// The orphans, by identifier.
    Orphans(Listed<Orphan>),
    /// The detached directories, rising.
    Detached(Listed<Id>),
    /// The removed entries, in the order of their identifiers. Of each, `one` has the members that are known to know of
    /// the removal, and `two` those that are known to know that all know of it.
    Marks(Listed<Entry>),
}
