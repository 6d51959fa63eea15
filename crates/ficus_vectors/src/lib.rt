//! Version vectors: how many versions of each replica something stands on, and how two of them stand to each other.
#![tactic(auto)]

mod laws;
mod standing;
mod vector;

pub use laws::same_vector;
pub use standing::Standing;
pub use vector::Vector;
