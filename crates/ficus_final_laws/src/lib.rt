//! The laws of what is given up: an object that is done is known whole to every member, and is used no more.
//!
//! A law is the contract of a function with an empty body. Its lemmas stand in `proofs/`, for the proofs of
//! the crates above.
#![tactic(auto)]

mod done;
mod examples;
mod uses;

pub use done::{collect_gives_up_exactly, done_is_known_to_all, finality};
pub use examples::{files_are_done, files_are_orphans};
pub use uses::{orphans_are_in_reach, removed_names_are_gone, users_see_life};
