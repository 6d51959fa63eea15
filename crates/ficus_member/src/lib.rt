//! The program's call for a member on a machine of its own: it makes the member, or carries out a script for it.
#![tactic(auto)]

mod beside;
mod making;
mod place;
mod program;
mod running;
mod tag_file;

pub use beside::Beside;
pub use place::{Place, place_of};
pub use program::member;
