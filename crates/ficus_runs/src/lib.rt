//! What commands do to a world of the model, one after the other, whatever the outside does meanwhile: definitions,
//! which the contracts of worlds and of runs cite.
#![tactic(auto)]

mod answers;
mod histories;
mod outside;
pub mod pieces;
mod same;
pub mod sweeps;

pub use answers::{
    no_message_is_bad, pulls_are_never_mixed, pulls_are_never_stale, same_updates_answer_same,
    same_updates_are_alike, taking_comes_to_one_thing,
};
pub use histories::{
    removed_stays_removed, runs_are_final, runs_are_lawful, runs_extend, serves_have_all_pieces,
};
pub use outside::{all_is_done_where_nothing_failed, only_stops_arm};
pub use same::{one_run, one_run_by_fuses, one_run_where_all_is_done};
