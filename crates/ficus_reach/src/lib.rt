//! Which objects are reached along the live entries of a list.
#![tactic(auto)]

mod edge;
mod found;
mod search;

pub use search::{below, reached};
