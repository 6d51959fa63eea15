//! Scripts and answers as bytes: which commands the lines of a script spell, and how answers are written.
#![tactic(auto)]

mod answer;
mod arguments;
mod command;
mod conflicts;
mod cut;
mod fault;
mod grammar;
mod laws;
mod line;
mod line_paths;
mod making;
mod marks;
mod order;
mod pick;
mod replica;
mod script;
mod verbs;
mod volume_line;
mod writing;

pub use answer::Answer;
pub use command::Command;
pub use fault::ScriptFault;
pub use laws::{no_bad_line, one_bad_line, one_script, one_volume_script};
pub use order::Order;
pub use script::{read_script, read_volume_script};
pub use volume_line::VolumeLine;
pub use writing::answer_text;
