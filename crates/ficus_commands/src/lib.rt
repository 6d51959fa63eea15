//! What a replica may be asked for, changes and looks, and what looks tell.
#![tactic(auto)]

mod change;
mod look;
mod told;

pub use change::Change;
pub use look::Look;
pub use told::Told;
