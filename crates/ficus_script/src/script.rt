ghost use Rattle.std.specs.Prelude.{◌≡◌, ◌↔◌, ◌<◌, ◌≤◌, ℕ, [], ◌∷◌, length, All, Err, IsTrue, IfOk, OnOk, IfSome, IfNone, IsErrOf};
ghost use Rattle.ficus_script.specs.Line.{AddsLine, fault_at};
ghost use Rattle.ficus_script.specs.Script.{is_passed_over, lines_of, AreLines, IsScript, IsFirstBad, IsFirstBadLine, MayStand};
ghost use Rattle.ficus_script.specs.VolumeLine.{IsFirstBadVolumeLine, IsVolumeScript};

use crate::cut::cut_at;
use crate::grammar::{Commands, Grammar, VolumeLines};
use crate::line::LineFault;
use crate::line_paths::LinePaths;
use crate::{Command, ScriptFault, VolumeLine};
use std::alloc::Global;

/// The commands that the script's lines spell, in order. `BadLine` comes exactly where a line is neither passed over
/// nor a command, and names the first such line. `Memory` comes only where there is none, and memory was refused.
pub fn read_script(alloc: Global, bytes: &[u8]) -> Result<Vec<Command>, ScriptFault>
    ensures script { IfOk result (λ commands. IsScript bytes.now commands.items) }
    ensures bad_line { (line : ℕ) → result ≡ Err (ScriptFault.BadLine line) → IsFirstBadLine bytes.now line }
    ensures no_line { (line : ℕ) → IsFirstBadLine bytes.now line → result ≡ Err (ScriptFault.BadLine line) }
{
    read_lines(alloc, bytes, &Commands {})
}

/// What the lines of a script over so many volumes ask for, in order. `BadLine` comes exactly where a line is neither
/// passed over nor one of a volume, and names the first such line. `Memory` comes only where there is none, and memory
/// was refused.
pub fn read_volume_script(
    alloc: Global,
    bytes: &[u8],
    volumes: u8,
) -> Result<Vec<VolumeLine>, ScriptFault>
    requires { 1 ≤ volumes }
    ensures script { IfOk result (λ lines. IsVolumeScript volumes bytes.now lines.items) }
    ensures bad_line { (line : ℕ) → result ≡ Err (ScriptFault.BadLine line)
        → IsFirstBadVolumeLine volumes bytes.now line }
    ensures no_line { (line : ℕ) → IsFirstBadVolumeLine volumes bytes.now line
        → result ≡ Err (ScriptFault.BadLine line) }
{
    read_lines(alloc, bytes, &VolumeLines { volumes })
}

// What the lines spell, in order.
fn read_lines<G: Grammar>(
    alloc: Global,
    bytes: &[u8],
    grammar: &G,
) -> Result<Vec<G::Line>, ScriptFault>
    ensures script { IfOk result (λ lines. AreLines (G.spells grammar.now) bytes.now lines.items) }
    ensures bad_line { (line : ℕ) → result ≡ Err (ScriptFault.BadLine line)
        → IsFirstBad (MayStand (G.is_spelled grammar.now)) bytes.now line }
    ensures no_line { (line : ℕ) → IsFirstBad (MayStand (G.is_spelled grammar.now)) bytes.now line
        → result ≡ Err (ScriptFault.BadLine line) }
{
    match take_lines(alloc, bytes, grammar) {
        Ok(lines) => Ok(lines),
        Err(ScriptFault::BadLine(line)) => Err(ScriptFault::BadLine(line)),
        Err(ScriptFault::Memory) => Err(fault_without_memory(bytes, grammar)),
    }
}

// What `read_lines` answers, but that memory may have been refused before a bad line was reached.
fn take_lines<G: Grammar>(
    alloc: Global,
    bytes: &[u8],
    grammar: &G,
) -> Result<Vec<G::Line>, ScriptFault>
    ensures script { IfOk result (λ lines. AreLines (G.spells grammar.now) bytes.now lines.items) }
    ensures good { OnOk result (All (MayStand (G.is_spelled grammar.now)) (lines_of bytes.now)) }
    ensures bad_line { (line : ℕ) → result ≡ Err (ScriptFault.BadLine line)
        → IsFirstBad (MayStand (G.is_spelled grammar.now)) bytes.now line }
{
    let mut lines = Vec::new(alloc);
    let mut paths = LinePaths::new();
    let mut number = 0;
    let mut rest = bytes;
    while let Some((line, others)) = first_line(rest) {
        number += 1;
        take_line(alloc, &mut lines, line, grammar, &mut paths).map_err(|fault| fault.at(number))?;
        rest = others;
    }
    Ok(lines)
}

// What the script comes to where memory was refused.
fn fault_without_memory<G: Grammar>(bytes: &[u8], grammar: &G) -> ScriptFault
    ensures bad_line { (line : ℕ) → result ≡ ScriptFault.BadLine line
        → IsFirstBad (MayStand (G.is_spelled grammar.now)) bytes.now line }
    ensures memory { result ≡ ScriptFault.Memory
        → All (MayStand (G.is_spelled grammar.now)) (lines_of bytes.now) }
{
    let mut paths = LinePaths::new();
    let mut number = 0;
    let mut rest = bytes;
    while let Some((line, others)) = first_line(rest) {
        number += 1;
        if !may_stand(line, grammar, &mut paths) {
            return ScriptFault::BadLine(number);
        }
        rest = others;
    }
    ScriptFault::Memory
}

// The first line, without the byte that ends it, and what stands behind it.
fn first_line(bytes: &[u8]) -> Option<(&[u8], &[u8])>
    ensures lines { IfSome result (λ cut. lines_of bytes.now ≡ cut.0.now ∷ lines_of cut.1.now) }
    ensures shorter { IfSome result (λ cut. length cut.1.now < length bytes.now) }
    ensures none { IfNone result (bytes.now ≡ []) }
{
    if bytes.is_empty() {
        return None;
    }
    let (line, rest) = cut_at(bytes, b'\n');
    Some((line, rest.unwrap_or(&[])))
}

// Adds what the line spells, where it isn't passed over.
fn take_line<G: Grammar>(
    alloc: Global,
    lines: &mut Vec<G::Line>,
    line: &[u8],
    grammar: &G,
    paths: &mut LinePaths,
) -> Result<(), LineFault>
    ensures taken { OnOk result (AddsLine (G.spells grammar.now) (G.is_spelled grammar.now) line.now lines.old.items
        lines.new.items) }
    ensures not_command { IsErrOf result LineFault.NotCommand → MayStand (G.is_spelled grammar.now) line.now → ⊥ }
    ensures memory { IsErrOf result LineFault.Memory → MayStand (G.is_spelled grammar.now) line.now }
{
    if !is_passed_over(line) {
        lines.push(grammar.read(alloc, line, paths)?)?;
    }
    Ok(())
}

// Whether the line may stand in the script, which is found without memory.
fn may_stand<G: Grammar>(line: &[u8], grammar: &G, paths: &mut LinePaths) -> bool
    ensures { IsTrue result ↔ MayStand (G.is_spelled grammar.now) line.now }
{
    is_passed_over(line) || grammar.has(line, paths)
}

fn is_passed_over(line: &[u8]) -> bool
    ensures { result ≡ is_passed_over line.now }
{
    matches!(line, [] | [b'#', ..])
}
