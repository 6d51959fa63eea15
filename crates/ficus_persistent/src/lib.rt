//! Lists whose versions share what they have in common: a copy shares all, and a change makes only one way down
//! a wide tree anew.
#![tactic(auto)]

mod below;
mod item;
mod laws;
mod leaf;
mod list;
mod row;
mod tree;

pub use item::{Cut, Item, Spelled};
pub use laws::low_is_a_logarithm;
pub use list::PersistentList;
