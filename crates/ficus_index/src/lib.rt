//! An index of identifiers by directory and name, in which one key leads to several, and whose versions share what
//! they have in common.
#![tactic(auto)]

mod index;
mod place;
mod rank;

pub use index::{Index, Span};
pub use place::{Note, Place};
pub use rank::{DIGEST_END, digest};
