ghost use Rattle.std.specs.Prelude.{◌≡◌, ◌≤◌, ◌+◌, ◌++◌, ◌∷◌, [], length, IfOk, OnOk};
ghost use Rattle.ficus_disk.specs.contracts.mem_disk.MemDiskDisk;
ghost use Rattle.ficus_ids.specs.Members.{IsCount};
ghost use Rattle.ficus_durable_state.specs.Limits.{byte_limit, update_limit};
ghost use Rattle.ficus_top.specs.Fresh.{AreFresh};
ghost use Rattle.ficus_top.specs.Summary.Sized.{sized};

use crate::summary::{Keeper, fresh_world};
use ficus_disk::{MemDisk, Pair, fresh_disks};
use ficus_ids::{Members, Memory};
use ficus_outside::MemLink;
use ficus_world::World;
use std::alloc::Global;

/// How many bytes the link of each volume counts as posted at the start, so that there is room for 256 MiB.
pub(crate) const POSTED: u64 = 805_306_368;

/// Volumes, and the disks of each.
#[derive(Drop)]
pub(crate) struct Fresh {
    pub(crate) worlds: Vec<World<Keeper, MemLink>>,
    pub(crate) disks: Vec<Vec<Pair<MemDisk>>>,
}

/// So many volumes to which nothing has happened.
pub(crate) fn fresh_volumes(
    alloc: Global,
    members: Members,
    ids: u32,
    bytes: u32,
    count: u8,
) -> Result<Fresh, Memory>
    requires members { IsCount members }
    requires ids_at_least { 1 ≤ ids }
    requires ids_at_most { ids ≤ update_limit }
    requires bytes { bytes ≤ byte_limit }
    ensures counted { IfOk result (λ fresh. length fresh.worlds.items ≡ count) }
    ensures fresh { IfOk result (λ fresh. AreFresh (sized members ids bytes) fresh.worlds.items fresh.disks.items) }
{
    let mut fresh = Fresh {
        worlds: Vec::new(alloc),
        disks: Vec::new(alloc),
    };
    for _ in 0..count {
        add_volume(alloc, members, ids, bytes, &mut fresh)?;
    }
    Ok(fresh)
}

// One more volume.
fn add_volume(
    alloc: Global,
    members: Members,
    ids: u32,
    bytes: u32,
    fresh: &mut Fresh,
) -> Result<(), Memory>
    requires members { IsCount members }
    requires ids_at_least { 1 ≤ ids }
    requires ids_at_most { ids ≤ update_limit }
    requires bytes { bytes ≤ byte_limit }
    ensures counted { OnOk result (length fresh.new.worlds.items ≡ length fresh.old.worlds.items + 1) }
    ensures fresh { OnOk result (AreFresh (sized members ids bytes) fresh.old.worlds.items fresh.old.disks.items
        → AreFresh (sized members ids bytes) fresh.new.worlds.items fresh.new.disks.items) }
{
    let mut disks = fresh_disks(alloc)?;
    let world = fresh_world(alloc, members, ids, bytes, POSTED, &mut disks)?;
    fresh.worlds.push(world)?;
    fresh.disks.push(disks)?;
    Ok(())
}
