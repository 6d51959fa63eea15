//! Scripts that follow from a number, run in memory, and what they come to.

mod counts;
mod keeper;
mod laws;
mod running;
mod summary;
mod text;
mod world;

pub use keeper::Keeper;
pub use laws::one_summary;
pub use summary::summarize;
pub use world::fresh_world;
