//! The laws of states: what the replica's commands and the merge table make of the state of an entry is what
//! the history gives it.
//!
//! A law is the contract of a function with an empty body. Its lemmas stand in `proofs/`, for the proofs of
//! the crates above.
#![tactic(auto)]

mod merge;
mod states;

pub use merge::merge_gives_states;
pub use states::states_follow_events;
