//! Files: versions of their bytes, what is covered of them, and lists of them by identifier.
#![tactic(auto)]

mod file;
mod files;
mod laws;
mod orphan;
mod shared;
mod showing;
mod version;
mod versions;

pub use file::FileReplica;
pub use files::{Files, FilesInOrder};
pub use laws::held_are_issued;
pub use orphan::Orphan;
pub use shared::SharedFile;
pub use version::Version;
pub use versions::Versions;
