//! The laws of tables: the entries and files that tables keep are what a replica holds after the history.
//!
//! A law is the contract of a function with an empty body. Its lemmas stand in `proofs/`, for the proofs of
//! the crates above.
#![tactic(auto)]

mod accepts;
mod steps;
mod tables;

pub use accepts::{accept_merges_files, answers_fit};
pub use steps::files_follow_updates;
pub use tables::{tables_are_one, tables_show_history};
