ghost use Rattle.std.specs.Prelude.{◌≡◌, All, IfOk, length};
ghost use Rattle.ficus_disk.specs.Fresh.{IsFreshPair};

use crate::{MemDisk, Pair};
use ficus_ids::Memory;
use std::alloc::Global;

/// Eight pairs of empty disks in memory, a pair for each replica that a volume may have. No fuse is armed.
pub fn fresh_disks(alloc: Global) -> Result<Vec<Pair<MemDisk>>, Memory>
    ensures count { IfOk result (λ disks. length disks.items ≡ 8) }
    ensures fresh { IfOk result (λ disks. All IsFreshPair disks.items) }
{
    let mut disks = Vec::new(alloc);
    for _ in 0..8u8 {
        disks.push(fresh_pair(alloc))?;
    }
    Ok(disks)
}

/// A pair of empty disks in memory. No fuse is armed. Takes no memory.
pub fn fresh_pair(alloc: Global) -> Pair<MemDisk>
    ensures { IsFreshPair result }
{
    Pair {
        a: MemDisk::new(alloc),
        b: MemDisk::new(alloc),
    }
}
