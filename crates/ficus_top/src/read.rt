ghost use Rattle.std.specs.Prelude.{◌≡◌, ◌↔◌, ◌+◌, ◌<◌, ◌≤◌, ℕ, [], length, take, All, IfOk, OnOk, OnErr, IfErr, IsErrOf, IsTrue};
ghost use Rattle.ficus_faults.specs.Faults.{Rose};
ghost use Rattle.ficus_top.specs.Graft.Crossing.{AreFew};
ghost use Rattle.ficus_top.specs.Graft.Runs.{IsLineOf};
ghost use Rattle.ficus_script.specs.Command.{IsCommand};
ghost use Rattle.ficus_script.specs.Script.{IsScript};
ghost use Rattle.ficus_script.specs.VolumeLine.{IsVolumeScript};
ghost use Rattle.ficus_top.specs.Grammar.{of_volumes};
ghost use Rattle.ficus_top.specs.Outside.{Gives, GivesBelow};
ghost use Rattle.ficus_loop.specs.Serving.{script_limit};
ghost use Rattle.ficus_top.specs.Reading.{TakesAll, TakesUntil, TakesUntilIn};

use crate::fault::ReadingFault;
use ficus_faults::Failed;
use ficus_outside::Source;
use ficus_script::{Command, ScriptFault, VolumeLine, read_script, read_volume_script};
use std::alloc::Global;

/// The most bytes of a script.
const SCRIPT_LIMIT: usize = 1_048_576;

/// Takes the whole script from the source, and reads its commands.
pub(crate) fn read_commands<S: Source>(
    alloc: Global,
    input: &mut S,
) -> Result<Vec<Command>, ReadingFault>
    ensures each { IfOk result (λ commands. All IsCommand commands.items) }
    ensures count { IfOk result (λ commands. length commands.items ≤ script_limit) }
    ensures script { S.tells → IfOk result (λ commands.
        TakesAll (S.left input.old) (S.left input.new) × IsScript (S.left input.old) commands.items) }
    ensures until { S.tells → IfErr result (TakesUntil (S.left input.old) (S.left input.new)) }
    ensures failed { IsErrOf result ReadingFault.Source → Rose (S.faults input.old) (S.faults input.new) }
    ensures told { S.faults input.old < S.faults input.new → IsErrOf result ReadingFault.Source }
    ensures counted { S.faults input.old ≤ S.faults input.new }
{
    let bytes = read_bytes(alloc, input)?;
    match read_script(alloc, &bytes) {
        Ok(commands) => Ok(commands),
        Err(ScriptFault::BadLine(line)) => Err(ReadingFault::BadLine(line as u32)),
        Err(ScriptFault::Memory) => Err(ReadingFault::Memory),
    }
}

/// Takes the whole script from the source, and reads its lines over so many volumes.
pub(crate) fn read_volume_lines<S: Source>(
    alloc: Global,
    input: &mut S,
    volumes: u8,
) -> Result<Vec<VolumeLine>, ReadingFault>
    requires few { AreFew volumes }
    ensures each { IfOk result (λ lines. All (IsLineOf volumes) lines.items) }
    ensures count { IfOk result (λ lines. length lines.items ≤ script_limit) }
    ensures script { S.tells → IfOk result (λ lines.
        TakesAll (S.left input.old) (S.left input.new) × IsVolumeScript volumes (S.left input.old) lines.items) }
    ensures until { S.tells
        → IfErr result (TakesUntilIn (of_volumes volumes) (S.left input.old) (S.left input.new)) }
    ensures failed { IsErrOf result ReadingFault.Source → Rose (S.faults input.old) (S.faults input.new) }
    ensures told { S.faults input.old < S.faults input.new → IsErrOf result ReadingFault.Source }
    ensures counted { S.faults input.old ≤ S.faults input.new }
{
    let bytes = read_bytes(alloc, input)?;
    match read_volume_script(alloc, &bytes, volumes) {
        Ok(lines) => Ok(lines),
        Err(ScriptFault::BadLine(line)) => Err(ReadingFault::BadLine(line as u32)),
        Err(ScriptFault::Memory) => Err(ReadingFault::Memory),
    }
}

/// Takes all bytes of the source, where they are no more than a script may have: 1 MiB. `TooLong` comes exactly where
/// there are more, `Source` where the source fails.
pub fn read_bytes<S: Source>(alloc: Global, input: &mut S) -> Result<Vec<u8>, ReadingFault>
    ensures limit { IfOk result (λ bytes. length bytes.items ≤ script_limit) }
    ensures all { S.tells → IfOk result (λ bytes. (S.left input.old ≡ bytes.items) × (S.left input.new ≡ [])) }
    ensures no_line { (line : ℕ) → IsErrOf result (ReadingFault.BadLine line) → ⊥ }
    ensures until { S.tells → IfErr result (TakesUntil (S.left input.old) (S.left input.new)) }
    ensures failed { IsErrOf result ReadingFault.Source → Rose (S.faults input.old) (S.faults input.new) }
    ensures told { S.faults input.old < S.faults input.new → IsErrOf result ReadingFault.Source }
    ensures counted { S.faults input.old ≤ S.faults input.new }
{
    let mut bytes = room(alloc)?;
    let count = fill(input, &mut bytes)?;
    if !is_within_limit(count) {
        return Err(ReadingFault::TooLong);
    }
    bytes.truncate(count);
    Ok(bytes)
}

// Room for a byte more than a script may have, so that one that is too long is told from one that fits.
fn room(alloc: Global) -> Result<Vec<u8>, ReadingFault>
    ensures room { IfOk result (λ bytes. length bytes.items ≡ script_limit + 1) }
    ensures memory { IfErr result (λ fault. fault ≡ ReadingFault.Memory) }
{
    vec![in alloc; 0; SCRIPT_LIMIT + 1].map_err(|_| ReadingFault::Memory)
}

// Whether a script may have so many bytes.
fn is_within_limit(count: usize) -> bool
    ensures { IsTrue result ↔ (count ≤ script_limit) }
{
    count <= SCRIPT_LIMIT
}

// Takes bytes until the buffer is full or the source ends, and answers how many.
fn fill<S: Source>(input: &mut S, into: &mut [u8]) -> Result<usize, Failed>
    ensures within { IfOk result (λ count. count ≤ length into.new) }
    ensures gives { S.tells → IfOk result (λ count. Gives (S.left input.old) (take count into.new) (S.left input.new)) }
    ensures end { S.tells → IfOk result (λ count. count < length into.new → S.left input.new ≡ []) }
    ensures failed { OnErr result (Rose (S.faults input.old) (S.faults input.new)) }
    ensures steady { OnOk result (S.faults input.new ≡ S.faults input.old) }
    ensures below { S.tells → OnErr result (GivesBelow (S.left input.old) (length into.new) (S.left input.new)) }
    ensures counted { S.faults input.old ≤ S.faults input.new }
{
    let mut filled = 0;
    while filled < into.len() {
        let count = input.take(&mut into[filled..])?;
        if count == 0 {
            break;
        }
        filled += count;
    }
    Ok(filled)
}
