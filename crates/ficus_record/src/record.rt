use ficus_entry::SharedEntry;
use ficus_file::SharedFile;
use ficus_ids::Listed;
use ficus_model::Op;

/// An event after which a replica saves, as it is noted behind an image: what has to be known of it to make what is
/// saved next from what was saved before.
#[derive(Drop)]
pub enum Record {
    /// An update, and what it does.
    Change(Op),
    /// An ask.
    Ask,
    /// The taking of the tables that a peer served, by their rows, for others to share.
    Accept {
        entries: Listed<SharedEntry>,
        files: Listed<SharedFile>,
    },
    /// A collection.
    Collect,
}
