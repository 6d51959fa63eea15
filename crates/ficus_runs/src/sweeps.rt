//! The laws of sweeps in the terms of runs: what the steps of a sweep that met no refusal leave, how much they add, and
//! where a sweep meets none.
//!
//! A law is the contract of a function with an empty body. Its lemmas stand in `proofs/`, for the proofs of
//! the crates above.

mod laws;

pub use laws::{sweeps_add, sweeps_leave_all_swept, sweeps_meet_no_refusal};
