//! Which of some objects the entries name or lie in.
#![tactic(auto)]

mod touching;

pub use touching::{is_among, touched};
