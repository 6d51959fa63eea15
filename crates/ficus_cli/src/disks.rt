ghost use Rattle.std.specs.Prelude.{IfOk};
ghost use Rattle.ficus_top.specs.Words.{texts};
ghost use Rattle.ficus_cli.specs.Disks.{AreFor};

use ficus_disk::{MemDisk, Pair, fresh_disks};
use ficus_file_disk::{FileDisk, disks_in};
use ficus_ids::Memory;
use ficus_top::root_of;
use std::alloc::Global;
use std::rt::Files;

/// How many pairs of disks the library takes, one for each replica that a volume may have.
const PAIRS: u8 = 8;

/// The disks over which the program runs.
#[derive(Drop)]
pub(crate) enum Disks<R: Files + Copy + Clone + Drop> {
    /// Those of the volume in a folder.
    InFolder(Vec<Pair<FileDisk<R>>>),
    /// Fresh ones in memory.
    InMemory(Vec<Pair<MemDisk>>),
}

/// The disks of the volume in the folder that the words name, or fresh ones in memory where they name none. No file is
/// touched.
pub(crate) fn disks_for<R: Files + Copy + Clone + Drop>(
    rt: R,
    alloc: Global,
    words: &Vec<String>,
) -> Result<Disks<R>, Memory>
    ensures { IfOk result (AreFor (texts words.now.items)) }
{
    match root_of(alloc, words)? {
        Some(root) => Ok(Disks::InFolder(disks_in(rt, alloc, root.as_str(), PAIRS)?)),
        None => Ok(Disks::InMemory(fresh_disks(alloc)?)),
    }
}
