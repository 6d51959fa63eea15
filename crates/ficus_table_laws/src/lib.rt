//! The laws that there are tables: every lawful history has lists of the entries and of the files that a replica holds.
//!
//! A law is the contract of a function with an empty body. Its lemmas stand in `proofs/`, for the proofs of
//! the crates above.
#![tactic(auto)]

mod tables;

pub use tables::tables_exist;
