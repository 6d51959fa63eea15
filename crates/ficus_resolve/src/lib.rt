//! Resolvers: how the versions of a file in conflict are made one, by the kind of the file.
#![tactic(auto)]

mod contents;
mod fault;
mod keep;
mod laws;
mod lines;
mod max;
mod resolver;

pub use fault::ResolveFault;
pub use laws::one_resolution;
pub use resolver::{CONTENT_LIMIT, resolve};
