//! The laws of what a replica holds: which entries, in which state, and which objects, after each event.
//!
//! A law is the contract of a function with an empty body. Its lemmas stand in `proofs/`, for the proofs of
//! the crates above.
#![tactic(auto)]

mod entries;
mod objects;

pub use entries::{
    accept_merges_entries, collect_drops_full_entries, kept_entries_stand, others_keep_entries,
    update_steps_entries,
};
pub use objects::{
    accept_merges_objects, collect_leaves_objects, kept_objects_stand, others_keep_objects,
    update_steps_objects,
};
