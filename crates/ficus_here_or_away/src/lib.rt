//! The disks of one member as those of all: its own ones are real, and empty ones in memory stand in for those of the
//! members that are elsewhere.
#![tactic(auto)]

mod here_or_away;
mod pairs;
mod stand_in;

pub use here_or_away::HereOrAway;
pub use pairs::pairs_for;
pub use stand_in::StandIn;
