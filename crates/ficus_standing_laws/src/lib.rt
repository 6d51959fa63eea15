//! The laws of replicas that stand for histories: that there are some, what alike says of them, where detached
//! directories of tables lie, and what a collection gives up.
//!
//! A law is the contract of a function with an empty body. Its lemmas stand in `proofs/`, for the proofs of
//! the crates above.
#![tactic(auto)]

mod alikeness;
mod collections;
mod detached;
mod replicas;

pub use alikeness::{alike_is_same_view, alike_tables_show_same};
pub use collections::{collections_give_up_exactly, second_collections_give_nothing};
pub use detached::detached_tables_hang_together;
pub use replicas::replicas_exist;
