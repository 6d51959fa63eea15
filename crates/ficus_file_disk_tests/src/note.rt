// What a system was asked, and what it answered.

/// A call with its answer. Files and folders are named by their paths.
#[derive(Drop)]
pub enum Note {
    Opened(String),
    NotThere(String),
    Made(String),
    OpenedToRead(String),
    Emptied(String),
    Renamed(String, String),
    Measured(u64),
    Moved(u64),
    Gave(Vec<u8>),
    Took(Vec<u8>),
    Synced,
    FolderThere(String),
    FolderMissing(String),
    FolderMade(String),
    FolderSynced(String),
    Refused,
}

impl Note {
    /// What was done, with what bytes or at which path, and with which number; no bytes and 0 where there are none.
    pub fn parts(&self) -> (&'static str, &[u8], u64) {
        match self {
            Note::Opened(path) => ("opened", path.as_bytes(), 0),
            Note::NotThere(path) => ("no file", path.as_bytes(), 0),
            Note::Made(path) => ("made", path.as_bytes(), 0),
            Note::OpenedToRead(path) => ("opened to read", path.as_bytes(), 0),
            Note::Emptied(path) => ("emptied", path.as_bytes(), 0),
            Note::Renamed(_, place) => ("renamed", place.as_bytes(), 0),
            Note::Measured(size) => ("size", &[], *size),
            Note::Moved(at) => ("at", &[], *at),
            Note::Gave(bytes) => ("gave", bytes, 0),
            Note::Took(bytes) => ("took", bytes, 0),
            Note::Synced => ("synced", &[], 0),
            Note::FolderThere(path) => ("folder", path.as_bytes(), 0),
            Note::FolderMissing(path) => ("no folder", path.as_bytes(), 0),
            Note::FolderMade(path) => ("made folder", path.as_bytes(), 0),
            Note::FolderSynced(path) => ("synced folder", path.as_bytes(), 0),
            Note::Refused => ("refused", &[], 0),
        }
    }
}
