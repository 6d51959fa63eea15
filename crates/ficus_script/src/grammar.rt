ghost use Rattle.std.specs.Prelude.{◌≡◌, ◌↔◌, ◌≤◌, ◌∷◌, ◌++◌, ℕ, List, IsTrue, IfSome, IfNone, Some};
ghost use Rattle.ficus_ids.specs.Members.{IsMember};
ghost use Rattle.ficus_script.specs.Line.{IsReadingBy};
ghost use Rattle.ficus_script.specs.VolumeLine.{IsVolumeCut};
ghost use Rattle.std.specs.Fmt.{decimal};

use crate::Command;
use crate::cut::cut_at;
use crate::line::{LineFault, is_command, is_step, read_command, read_step};
use crate::line_paths::LinePaths;
use crate::volume_line::VolumeLine;
use ficus_ids::read_number;
use std::alloc::Global;

/// What the lines of a script spell, but for those that are passed over.
pub(crate) trait Grammar {
    /// What a line spells.
    type Line: Drop;

    /// These bytes spell it.
    ghost spells: { Self → Self.Line → List ℕ → Type 0 };

    /// These bytes spell something.
    ghost is_spelled: { Self → List ℕ → Type 0 };

    /// What the line spells. `NotCommand` comes exactly where it spells nothing, and `Memory` only where it spells
    /// something and memory was refused.
    fn read(
        &self,
        alloc: Global,
        line: &[u8],
        paths: &mut LinePaths,
    ) -> Result<Self::Line, LineFault>
        ensures { IsReadingBy (spells self.now) (is_spelled self.now) line.now result };

    /// Whether the line spells something, which is found without memory.
    fn has(&self, line: &[u8], paths: &mut LinePaths) -> bool
        ensures { IsTrue result ↔ is_spelled self.now line.now };

    /// What spells one of them spells something.
    ghost spelled: { (grammar : Self) (one : Self.Line) (line : List ℕ) → spells grammar one line
        → is_spelled grammar line };
}

// The number of one of so many volumes, which stands behind `@` and before a space at the front of the line, and what
// stands behind; or the first, and the whole line, where it doesn't begin with `@`.
fn cut_volume(line: &[u8], volumes: u8) -> Option<(u8, &[u8])>
    requires { 1 ≤ volumes }
    ensures found { IfSome result (λ cut. IsVolumeCut volumes line.now cut.0 cut.1.now) }
    ensures none { IfNone result ((volume : ℕ) (text : List ℕ) → IsVolumeCut volumes line.now volume text → ⊥) }
{
    match line {
        [b'@', rest @ ..] => cut_number(rest, volumes),
        _ => Some((1, line)),
    }
}

// The number of one of so many volumes at the front of the bytes, and what stands behind a space.
fn cut_number(bytes: &[u8], volumes: u8) -> Option<(u8, &[u8])>
    ensures found { IfSome result
        (λ cut. IsMember volumes cut.0 × (bytes.now ≡ decimal cut.0 ++ 32 ∷ cut.1.now)) }
    ensures none { IfNone result ((volume : ℕ) (text : List ℕ) → IsMember volumes volume
        → bytes.now ≡ decimal volume ++ 32 ∷ text → ⊥) }
{
    let (digits, rest) = cut_at(bytes, b' ');
    let text = rest?;
    let volume = read_volume(digits, volumes)?;
    Some((volume, text))
}

// The number of one of so many volumes that the digits spell.
fn read_volume(digits: &[u8], volumes: u8) -> Option<u8>
    ensures found { IfSome result (λ volume. IsMember volumes volume × (digits.now ≡ decimal volume)) }
    ensures none { IfNone result ((volume : ℕ) → IsMember volumes volume → digits.now ≡ decimal volume → ⊥) }
{
    let number = read_number(digits)?;
    if 1 <= number && number <= u32::from(volumes) {
        Some(number as u8)
    } else {
        None
    }
}

/// Commands.
#[derive(Clone, Copy)]
pub(crate) struct Commands {}

impl Grammar for Commands {
    ghost use Rattle.ficus_script.specs.Script.{IsCommandLine, SpellsCommand};

    type Line = Command;

    ghost spells = { λ _ command line. SpellsCommand command line };

    ghost is_spelled = { λ _ line. IsCommandLine line };

    ghost spelled = { λ _ command line is. (command, is.0, is.1) };

    fn read(
        &self,
        alloc: Global,
        line: &[u8],
        paths: &mut LinePaths,
    ) -> Result<Command, LineFault> {
        read_command(alloc, line, paths)
    }

    fn has(&self, line: &[u8], paths: &mut LinePaths) -> bool {
        is_command(line, paths)
    }
}

/// Commands, each one step of a world, of so many volumes.
#[derive(Drop)]
pub(crate) struct VolumeLines {
    pub(crate) volumes: u8,
    ghost some: { 1 ≤ volumes },
}

impl Grammar for VolumeLines {
    ghost use Rattle.ficus_script.specs.VolumeLine.{IsVolumeLine, SpellsLine};

    type Line = VolumeLine;

    ghost spells = { λ g line bytes. SpellsLine g.volumes line bytes };

    ghost is_spelled = { λ g line. IsVolumeLine g.volumes line };

    ghost spelled = { λ _ one line is. (one, is) };

    fn read(
        &self,
        alloc: Global,
        line: &[u8],
        paths: &mut LinePaths,
    ) -> Result<VolumeLine, LineFault> {
        let Some((volume, text)) = cut_volume(line, self.volumes) else {
            return Err(LineFault::NotCommand);
        };
        let command = read_step(alloc, text, paths)?;
        Ok(VolumeLine { volume, command })
    }

    fn has(&self, line: &[u8], paths: &mut LinePaths) -> bool {
        match cut_volume(line, self.volumes) {
            Some((_, text)) => is_step(text, paths),
            None => false,
        }
    }
}
