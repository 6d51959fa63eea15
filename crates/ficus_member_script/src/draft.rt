ghost use Rattle.std.specs.Prelude.{◌≡◌, ◌≢◌, ◌↔◌, [], ◌∷◌, ◌++◌, All, IsTrue, false};
ghost use Rattle.ficus_script.specs.Script.{MayStand};
ghost use Rattle.ficus_member_script.specs.MemberLine.{IsMemberLine};
ghost use Rattle.ficus_member_script.specs.Reading.{Takes};

use crate::MemberLine;
use crate::line::read_line;
use ficus_script::ScriptFault;
use std::alloc::Global;

/// What is read of a script so far.
#[derive(Drop)]
pub(crate) struct Draft {
    /// What the lines ask for, in order.
    pub(crate) lines: Vec<MemberLine>,
    /// Whether memory was refused for a line, which is then missing.
    pub(crate) refused: bool,
}

impl Draft {
    /// Nothing so far.
    pub(crate) fn new(alloc: Global) -> Draft
        ensures empty { result.lines.items ≡ [] }
        ensures whole { result.refused ≡ false }
    {
        Draft {
            lines: Vec::new(alloc),
            refused: false,
        }
    }

    /// Whether the line may stand in the script. What it asks for comes behind the others, unless it is passed over.
    pub(crate) fn take(&mut self, alloc: Global, line: &[u8]) -> bool
        requires { All (λ byte. byte ≢ 10) line.now }
        ensures may { IsTrue result ↔ MayStand IsMemberLine line.now }
        ensures taken { IsTrue result → Takes line.now self.old self.new }
    {
        if matches!(line, [] | [b'#', ..]) {
            return true;
        }
        match read_line(alloc, line) {
            Ok(line) => self.push(line),
            Err(ScriptFault::Memory) => self.refused = true,
            Err(ScriptFault::BadLine(_)) => return false,
        }
        true
    }

    // Adds what a line asks for, or notes that memory was refused.
    fn push(&mut self, line: MemberLine)
        ensures { self.new.refused ≡ false
            → (self.old.refused ≡ false) × (self.new.lines.items ≡ self.old.lines.items ++ line ∷ []) }
    {
        if self.lines.push(line).is_err() {
            self.refused = true;
        }
    }
}
