use thiserror::Error;

/// Why bytes gave no commands.
#[derive(Clone, Copy, Debug, PartialEq, Eq, Error)]
pub enum ScriptFault {
    /// The line of this number, counted from 1, is the first that is neither passed over nor a command.
    #[error("bad line {0}")]
    BadLine(u64),
    /// Memory was refused.
    #[error("memory")]
    Memory,
}
