//! How faults of the outside are counted: by sources, sinks, links and disks alike.
#![tactic(auto)]

mod calls;
mod failed;
mod faults;

pub use calls::Calls;
pub use failed::Failed;
pub use faults::Faults;
