//! The laws of the model: what holds of every history, whoever wrote it.
//!
//! A law is the contract of a function with an empty body. Its lemmas stand in `proofs/`, for the proofs of
//! the crates above.
#![tactic(auto)]

mod exchange;
mod history;
mod known;
mod live;

pub use exchange::{accept_joins, answers_are_taken, pull_joins};
pub use history::{lawful_by_steps, numbers_name_one};
pub use known::{known_by_steps, known_is_seen};
pub use live::{
    entries_are_sound, make_enters_one, others_change_nothing, removed_never_returns,
    same_updates_show_same,
};
