ghost use Rattle.std.specs.Prelude.{◌≡◌, IfOk};
ghost use Rattle.ficus_opening.specs.Check.Lines.{checked_line, checked_text, sound_head, sound_tail};

use crate::check::Checked;
use ficus_ids::{Members, Memory};
use std::alloc::Global;

/// A line of each replica, from 1 on.
pub fn checked_text(alloc: Global, judgements: &[Checked]) -> Result<Vec<u8>, Memory>
    ensures { IfOk result (λ text. text.items ≡ checked_text judgements.now) }
{
    let mut text = Vec::new(alloc);
    for index in 0..judgements.len() {
        let line = checked_line(alloc, index + 1, &judgements[index])?;
        text.extend_from_slice(&line)?;
    }
    Ok(text)
}

// What the disks of this replica are judged to be.
fn checked_line(alloc: Global, replica: usize, checked: &Checked) -> Result<Vec<u8>, Memory>
    ensures { IfOk result (λ line. line.items ≡ checked_line replica checked.now) }
{
    match *checked {
        Checked::Empty => Ok(format!(in alloc; "replica {replica} empty\n")?.into_bytes()),
        Checked::Damaged => Ok(format!(in alloc; "replica {replica} damaged\n")?.into_bytes()),
        Checked::Sound {
            members,
            generation,
            live,
            dead,
            objects,
        } => {
            let mut line = sound_head(alloc, replica, members, generation)?;
            let held = sound_tail(alloc, live, dead, objects)?;
            line.extend_from_slice(&held)?;
            Ok(line)
        }
    }
}

// Whose it is, of how many members, and of which generation.
fn sound_head(
    alloc: Global,
    replica: usize,
    members: Members,
    generation: u64,
) -> Result<Vec<u8>, Memory>
    ensures { IfOk result (λ text. text.items ≡ sound_head replica members generation) }
{
    let count = members.count();
    let text = format!(in alloc; "replica {replica} members {count} generation {generation}")?;
    Ok(text.into_bytes())
}

// How much it holds.
fn sound_tail(alloc: Global, live: u32, dead: u32, objects: u32) -> Result<Vec<u8>, Memory>
    ensures { IfOk result (λ text. text.items ≡ sound_tail live dead objects) }
{
    let text = format!(in alloc; " live {live} dead {dead} objects {objects}\n")?;
    Ok(text.into_bytes())
}
