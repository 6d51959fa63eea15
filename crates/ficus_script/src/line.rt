ghost use Rattle.std.specs.Prelude.{◌≡◌, ◌↔◌, ℕ, List, Some, IsTrue, IfSome, IfNone};
ghost use Rattle.ficus_script.specs.Arguments.{IsReplicaNumber, bytes_of};
ghost use Rattle.ficus_script.specs.declared.line.LineFault.TheVariants.{Memory as OutOfMemory};
ghost use Rattle.ficus_script.specs.Line.{fault_at, led_by, IsCut, IsReadingBy, IsReadingOf};
ghost use Rattle.ficus_script.specs.Script.{IsCommandLine, IsStepLine, SpellsStep};

use crate::arguments::read_arguments;
use crate::cut::cut_at;
use crate::line_paths::LinePaths;
use crate::making::command_of;
use crate::replica::read_replica;
use crate::verbs::{is_command_of, is_step_of};
use crate::{Command, ScriptFault};
use ficus_ids::Memory;
use std::alloc::{AllocFailed, Global};

/// Why a line gave no command.
#[derive(Clone, Copy)]
pub(crate) enum LineFault {
    /// The line spells no command.
    NotCommand,
    /// Memory was refused.
    Memory,
}

impl From<Memory> for LineFault {
    ghost from_gives = { λ _ fault. fault ≡ OutOfMemory };

    fn from(_: Memory) -> LineFault {
        LineFault::Memory
    }
}

impl<T: Drop> From<AllocFailed<T>> for LineFault {
    ghost from_gives = { λ _ fault. fault ≡ OutOfMemory };

    fn from(_: AllocFailed<T>) -> LineFault {
        LineFault::Memory
    }
}

impl LineFault {
    /// The fault of a script in which this is the fault of the line with this number.
    pub(crate) fn at(self, line: u64) -> ScriptFault
        ensures { result ≡ fault_at self line }
    {
        match self {
            LineFault::NotCommand => ScriptFault::BadLine(line),
            LineFault::Memory => ScriptFault::Memory,
        }
    }
}

/// The command that the line spells. `NotCommand` comes exactly where it spells none, and `Memory` only where it spells
/// one, which is one step of a world, and memory was refused.
pub(crate) fn read_command(
    alloc: Global,
    line: &[u8],
    paths: &mut LinePaths,
) -> Result<Command, LineFault>
    ensures { IsReadingOf line.now result }
{
    let (by, verb, behind) = cut_line(line);
    let Some(shape) = read_arguments(behind, paths) else {
        return Err(LineFault::NotCommand);
    };
    command_of(alloc, by, verb, paths, &shape)
}

/// Whether the line spells a command, which is found without memory.
pub(crate) fn is_command(line: &[u8], paths: &mut LinePaths) -> bool
    ensures { IsTrue result ↔ IsCommandLine line.now }
{
    let (by, verb, behind) = cut_line(line);
    match read_arguments(behind, paths) {
        Some(shape) => is_command_of(by, verb, paths, &shape),
        None => false,
    }
}

/// The command that the line spells, which is one step of a world. `NotCommand` comes exactly where it spells none
/// such, and `Memory` only where it spells one and memory was refused.
pub(crate) fn read_step(
    alloc: Global,
    line: &[u8],
    paths: &mut LinePaths,
) -> Result<Command, LineFault>
    ensures { IsReadingBy SpellsStep IsStepLine line.now result }
{
    let command = read_command(alloc, line, paths)?;
    if command.is_step() {
        Ok(command)
    } else {
        Err(LineFault::NotCommand)
    }
}

/// Whether the line spells a command that is one step of a world, which is found without memory.
pub(crate) fn is_step(line: &[u8], paths: &mut LinePaths) -> bool
    ensures { IsTrue result ↔ IsStepLine line.now }
{
    let (by, verb, behind) = cut_line(line);
    match read_arguments(behind, paths) {
        Some(shape) => is_step_of(by, verb, paths, &shape),
        None => false,
    }
}

// The number of a replica that leads the line, or none, the next word, and what stands behind it and a space, if
// anything does.
fn cut_line(line: &[u8]) -> (Option<u8>, &[u8], Option<&[u8]>)
    ensures { IsCut line.now result.0 result.1.now (bytes_of result.2) }
{
    let (by, words) = cut_replica(line);
    let (verb, behind) = cut_at(words, b' ');
    (by, verb, behind)
}

// The number of a replica that leads the line, and what stands behind it and a space; or none, and the line.
fn cut_replica(line: &[u8]) -> (Option<u8>, &[u8])
    ensures number { IfSome result.0 IsReplicaNumber }
    ensures whole { line.now ≡ led_by result.0 result.1.now }
    ensures none { IfNone result.0 ((replica : ℕ) (rest : List ℕ)
        → IsReplicaNumber replica → line.now ≡ led_by (Some replica) rest → ⊥) }
{
    let (first, rest) = cut_at(line, b' ');
    let Some(rest) = rest else {
        return (None, line);
    };
    match read_replica(first) {
        Some(by) => (Some(by), rest),
        None => (None, line),
    }
}
