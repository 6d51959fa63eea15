//! A member of a volume on a machine of its own: what it does for one line, with the messages that come for it and
//! those that it posts, and the note of its open ask.
#![tactic(auto)]

mod acting;
mod answering;
mod asking;
mod coming;
mod fault;
mod gathering;
mod machine;
mod noting;
mod serving;
mod taking;

pub use fault::LineFault;
pub use machine::Machine;
