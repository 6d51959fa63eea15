//! The vocabulary of Ficus: members, identifiers, marks, names, kinds and refusals.
#![tactic(auto)]

mod id;
mod kind;
mod listed;
mod marks;
mod members;
mod memory;
mod name;
mod number;
mod refusal;

pub use id::{ATTIC, Id, ROOT, id_order, pseudo_ids};
pub use kind::{FIXED_LIMIT, Kind, Sort};
pub use listed::Listed;
pub use marks::{Marks, same_marks};
pub use members::Members;
pub use memory::Memory;
pub use name::{NAME_LIMIT, Name, NameFault};
pub use number::read_number;
pub use refusal::Refusal;
