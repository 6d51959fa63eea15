//! The model of Ficus: one list of events that only grows, and what follows from it.
#![tactic(auto)]

mod event;
mod history;

pub use event::{Event, Op};
pub use history::History;
