//! The laws of a file's versions as tables keep them: they are what the history shows.
//!
//! A law is the contract of a function with an empty body. Its lemmas stand in `proofs/`, for the proofs of
//! the crates above.
#![tactic(auto)]

mod accepts;
mod lists;
mod resolves;
mod vectors;

pub use accepts::accept_merges_lists;
pub use lists::{lists_are_one, lists_follow_writes};
pub use resolves::resolved_alike_end_conflict;
pub use vectors::vectors_compare_as_pasts;
