//! The laws of what a replica shows and holds that go beyond single events: where detached directories lie, what is
//! left after a collection, that a replica marks what it holds removed, and in which one state each entry stands.
//!
//! A law is the contract of a function with an empty body. Its lemmas stand in `proofs/`, for the proofs of
//! the crates above.
#![tactic(auto)]

mod collections;
mod detached;
mod marked;

pub use collections::{collections_leave_what_is_needed, second_collections_give_nothing};
pub use detached::detached_lie_in_detached;
pub use marked::{one_state, removed_are_marked};
