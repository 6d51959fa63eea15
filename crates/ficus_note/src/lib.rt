//! The note of a member's open ask, on two slots of its own, so that the ask outlives the process that asked.
#![tactic(auto)]

mod asked;
mod fault;
mod note;
mod reading;

pub use asked::{Asked, one_note};
pub use fault::NoteFault;
pub use note::Note;
