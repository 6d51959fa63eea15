//! A keeper with one slot on each disk of a pair: it saves a whole image at each commit, on the disk not in force.
#![tactic(auto)]

mod choosing;
mod reading;
mod two_slot;

pub use choosing::{Choice, choose};
pub use reading::read_both;
pub use two_slot::TwoSlot;
