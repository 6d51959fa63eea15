//! The words of the command line: which mode they ask for, of all members of a volume or of one, and what they give it.
#![tactic(auto)]

mod fault;
mod given;
mod laws;
mod matches;
mod member_mode;
mod mode;
mod numbers;
mod reading;
mod root;

pub use fault::WordsFault;
pub use laws::{one_call, one_member_mode, one_mode, one_use};
pub use member_mode::MemberMode;
pub use mode::{Mode, Size};
pub use reading::{read_member_words, read_words};
pub use root::Root;
