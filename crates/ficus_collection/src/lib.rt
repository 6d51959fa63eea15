//! What a collection gives up: the removed entries of which everybody is known to know that all know, and the files
//! thus left.
#![tactic(auto)]

mod known;
mod laws;
mod reclaiming;
mod unneeded;

pub use laws::one_reclaim;
pub use reclaiming::{Reclaimed, reclaim};
