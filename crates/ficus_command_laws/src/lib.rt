//! The laws of single commands over worlds of the model: what only looks changes nothing, what was known and is alive
//! was alive before, a second collection is answered with nothing, and where changes want memory.
//!
//! A law is the contract of a function with an empty body. Its lemmas stand in `proofs/`, for the proofs of
//! the crates above.
#![tactic(auto)]

mod steps;
mod wanting;

pub use steps::{looks_change_nothing, second_collects_nothing, what_is_alive_was_alive};
pub use wanting::memory_is_wanted_late;
