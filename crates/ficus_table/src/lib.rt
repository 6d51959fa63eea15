//! Tables: rows by identifier in nodes that copies share, with edits laid over them that take no memory, and walks
//! along one table and along two.
#![tactic(auto)]

mod edit;
mod entire;
mod in_order;
mod replacing;
mod row;
mod search;
mod side_by_side;
mod table;

pub use in_order::InOrder;
pub use replacing::are_many;
pub use row::Row;
pub use side_by_side::{Pair, RowPair, SideBySide};
pub use table::Table;
