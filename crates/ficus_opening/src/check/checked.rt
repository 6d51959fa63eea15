ghost use Rattle.std.specs.Prelude.{◌≡◌};
ghost use Rattle.ficus_opening.specs.Check.Judged.{soundness_of};
ghost use Rattle.ficus_durable_state.specs.Saved.{FitsImage};

use crate::check::holding::{Holding, holding_of};
use ficus_durable_state::{Saved, tables_are_countable};
use ficus_ids::Members;

/// What the disks of one replica are judged to be.
#[derive(Clone, Copy, PartialEq, Eq)]
pub enum Checked {
    /// Both hold nothing.
    Empty,
    /// They hold something, and nothing of this replica with which a world may be opened.
    Damaged,
    /// They hold what this replica saved: of a volume with so many members, of this generation, with so many entries
    /// that are live, entries that are removed, and files and directories.
    Sound {
        members: Members,
        generation: u64,
        live: u32,
        dead: u32,
        objects: u32,
    },
}

/// What is told of what a replica saved.
pub fn soundness_of(saved: &Saved) -> Checked
    requires { FitsImage saved.now }
    ensures { result ≡ soundness_of saved.now }
{
    tables_are_countable();
    let Holding {
        live,
        dead,
        objects,
    } = holding_of(&saved.entries, &saved.files);
    Checked::Sound {
        members: saved.members,
        generation: saved.generation,
        live: live as u32,
        dead: dead as u32,
        objects: objects as u32,
    }
}
