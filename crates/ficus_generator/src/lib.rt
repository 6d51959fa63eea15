//! Scripts that follow from a number, as large as is wanted: their texts, and their commands.
#![tactic(auto)]

mod commands;
mod draws;
mod laws;
mod paths;
mod script;
mod step;

pub use commands::generated_commands;
pub use laws::lines_are_commands;
pub use script::generate;
