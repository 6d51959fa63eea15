ghost use Rattle.std.specs.Prelude.{◌↔◌, ◌++◌, codes, IsTrue};
ghost use Rattle.ficus_member_script.specs.Reading.{Begins, BeginsElsewhere, IsKeptLine, IsReadingOf};

use crate::MemberLine;
use ficus_ids::Listed;
use ficus_script::{ScriptFault, VolumeLine, read_volume_script};
use std::alloc::{AllocError, Global};

/// What the line asks for. `BadLine` comes exactly where that is nothing, and `Memory` only where it is something and
/// memory was refused.
pub(crate) fn read_line(alloc: Global, line: &[u8]) -> Result<MemberLine, ScriptFault>
    requires { IsKeptLine line.now }
    ensures { IsReadingOf line.now result }
{
    match line.strip_prefix(b"take ".as_slice()) {
        Some(name) => read_take(alloc, name),
        None if begins_elsewhere(line) => Err(ScriptFault::BadLine(1)),
        None => read_command(alloc, line),
    }
}

// The line that takes the message of this name.
fn read_take(alloc: Global, name: &[u8]) -> Result<MemberLine, ScriptFault>
    ensures { IsReadingOf (codes "take " ++ name.now) result }
{
    if name.is_empty() {
        return Err(ScriptFault::BadLine(1));
    }
    match Vec::from_slice(alloc, name) {
        Ok(name) => Ok(MemberLine::Take(Listed::of(name))),
        Err(AllocError) => Err(ScriptFault::Memory),
    }
}

// Whether the line begins as none does that asks one member for something, so that it is known without memory.
fn begins_elsewhere(line: &[u8]) -> bool
    ensures { IsTrue result ↔ BeginsElsewhere line.now }
{
    begins(line, b"@")
        || begins(line, b"give ")
        || begins(line, b"pull ")
        || begins(line, b"alike ")
        || begins(line, b"stop ")
}

fn begins(line: &[u8], bytes: &[u8]) -> bool
    ensures { IsTrue result ↔ Begins bytes.now line.now }
{
    line.starts_with(bytes)
}

// The command that the line spells. The reader for one volume takes the lines that spell one step, and more only
// behind `@`.
fn read_command(alloc: Global, line: &[u8]) -> Result<MemberLine, ScriptFault>
    requires kept { IsKeptLine line.now }
    requires no_name { Begins (codes "take ") line.now → ⊥ }
    requires own { BeginsElsewhere line.now → ⊥ }
    ensures { IsReadingOf line.now result }
{
    let mut lines = read_volume_script(alloc, line, 1)?;
    match lines.pop() {
        Some(VolumeLine { command, .. }) => Ok(MemberLine::Does(command)),
        None => Err(ScriptFault::BadLine(1)),
    }
}
