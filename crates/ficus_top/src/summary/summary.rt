ghost use Rattle.std.specs.Prelude.{◌<◌, ◌≤◌, ◌^◌, IfOk};
ghost use Rattle.ficus_ids.specs.Members.{IsCount};
ghost use Rattle.ficus_top.specs.Summary.Summary.{Summarizes};

use crate::summary::running::{holdings_of, run};
use crate::summary::text::summary_text;
use crate::summary::world::fresh_world;
use ficus_disk::fresh_disks;
use ficus_generator::generated_commands;
use ficus_ids::{Members, Memory};
use ficus_world::{DEFAULT_BYTES, DEFAULT_IDS};
use std::alloc::Global;

/// What the script of the seed comes to, over so many steps, for so many members: it is run in memory, on a fresh
/// volume with the default limits.
pub fn summarize(alloc: Global, members: Members, seed: u32, steps: u32) -> Result<Vec<u8>, Memory>
    requires members { IsCount members }
    requires seed { seed < 2 ^ 31 }
    requires steps { steps ≤ 5000 }
    ensures { IfOk result (λ text. Summarizes members seed steps text.items) }
{
    let commands = generated_commands(alloc, members, seed, steps)?;
    let mut disks = fresh_disks(alloc)?;
    let mut world = fresh_world(alloc, members, DEFAULT_IDS, DEFAULT_BYTES, 0, &mut disks)?;
    let counts = run(alloc, members, &mut world, &mut disks, &commands)?;
    let holdings = holdings_of(alloc, members, &world)?;
    summary_text(alloc, counts, &holdings)
}
