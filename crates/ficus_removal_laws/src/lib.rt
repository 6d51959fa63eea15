//! The laws of removals: what a replica knows of what others know of a removal, and what that knowledge tells
//! of entries that are dropped.
//!
//! A law is the contract of a function with an empty body. Its lemmas stand in `proofs/`, for the proofs of
//! the crates above.
#![tactic(auto)]

mod dropped;
mod heard;
mod marks;

pub use dropped::{
    absent_entries_are_explained, collect_drops_exactly, dropped_is_known_to_all,
    entries_are_dropped, live_is_never_dropped,
};
pub use heard::{
    knowledge_has_two_readings, knowledge_is_decided, last_is_heard, own_marks_follow,
};
pub use marks::{
    accept_joins_marks, marks_stay, removal_begins, removals_are_told, removals_take_effect,
};
