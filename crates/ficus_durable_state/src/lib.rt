//! What a replica saves, and what an image asks of it.
#![tactic(auto)]

mod issued;
mod laws;
mod saved;

pub use laws::{
    changed_tables_fit, limits, merged_tables_fit, reclaimed_tables_fit, tables_are_countable,
};
pub use saved::{BYTE_LIMIT, FILE_LIMIT, Saved, UPDATE_LIMIT};
