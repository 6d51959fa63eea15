use ficus_ids::Listed;
use ficus_script::Command;

/// What a line of the script of a member on a machine of its own asks for.
#[derive(Drop)]
pub enum MemberLine {
    /// A command that asks one member, as in any script: each but `give`, `pull`, `alike`, `stop`, `sweep` and `why`.
    /// The number may be another member's: such a command is refused where it is answered.
    Does(Command),
    /// `take NAME`: the message in the file of this name, which is the rest of the line, is taken. The name is one byte
    /// long at least; it may be no file's.
    Take(Listed<u8>),
}
