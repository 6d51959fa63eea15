//! The law that an operation makes one thing of what a replica saves.

mod laws;

pub use laws::one_change;
