//! The laws of answers in pieces: the generation of a replica determines what it saves, so pieces of two servings of
//! one generation may be mixed, and all that a replica has taken when it completes a state is of one state.
//!
//! A law is the contract of a function with an empty body. Its lemmas stand in `proofs/`, for the proofs of
//! the crates above.

mod generations;
mod taking;

pub use generations::{generation_determines_known, generation_determines_saved};
pub use taking::{pieces_may_be_mixed, serves_may_come, taken_pieces_are_alike};
