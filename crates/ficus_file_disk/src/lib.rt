//! A disk over a file of the system, and those of a volume in a folder: with the standard streams, the edge that is
//! trusted.
#![tactic(auto)]

mod file_disk;
mod folders;
mod stored_file;
mod system;
mod volume;

pub use file_disk::{FileDisk, SystemDisk};
pub use system::{Runtime, System};
pub use volume::disks_in;
