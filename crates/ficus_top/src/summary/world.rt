ghost use Rattle.std.specs.Prelude.{◌≡◌, ◌≤◌, ℕ, [], length, take, IfOk};
ghost use Rattle.ficus_ids.specs.Members.{IsCount};
ghost use Rattle.ficus_runs.specs.Fuses.{FuseState};
ghost use Rattle.ficus_runs.specs.Start.{start};
ghost use Rattle.ficus_durable_state.specs.Limits.{byte_limit, update_limit};
ghost use Rattle.ficus_top.specs.Summary.Keeper.{keeper};
ghost use Rattle.ficus_top.specs.Summary.Sized.{sized};
ghost use Rattle.ficus_world.specs.Disks.{IsBacked};
ghost use Rattle.ficus_opening.specs.Fuses.{AreUnarmed};
ghost use Rattle.ficus_world.specs.Fuses.{FusesStand, at_rest};
ghost use Rattle.ficus_opening.specs.Opening.{AreEmpty, fuses_in};
ghost use Rattle.ficus_world.specs.World.{WorldStandsFor};

use crate::summary::keeper::Keeper;
use ficus_disk::{Disk, Pair};
use ficus_ids::{Members, Memory};
use ficus_opening::{WorldFault, what_is_made_stands};
use ficus_outside::MemLink;
use ficus_world::World;
use std::alloc::Global;

/// Makes a fresh volume with these limits on empty disks, whose fuses aren't armed, and opens it, over a link that
/// counts so many bytes as posted already. Such disks don't fail.
pub fn fresh_world<D: Disk>(
    alloc: Global,
    members: Members,
    ids: u32,
    bytes: u32,
    total: u64,
    disks: &mut Vec<Pair<D>>,
) -> Result<World<Keeper, MemLink>, Memory>
    requires members { IsCount members }
    requires ids_at_least { 1 ≤ ids }
    requires ids_at_most { ids ≤ update_limit }
    requires bytes { bytes ≤ byte_limit }
    requires tells { D.tells }
    requires tells_fuse { D.tells_fuse }
    requires pairs { length disks.old.items ≡ 8 }
    requires empty { AreEmpty D.seen disks.old.items members }
    requires unarmed { AreUnarmed D.fuse disks.old.items }
    ensures stands { IfOk result (λ world. WorldStandsFor (sized members ids bytes)
        (start [] members total (take members (fuses_in D.armings disks.old.items))) world.whole) }
    ensures unfailed { IfOk result (λ world. world.whole.post.faults ≡ 0) }
    ensures backed { IfOk result (λ world. IsBacked keeper D.Disk world disks.new.items) }
    ensures fuses { IfOk result (λ world. (F : ℕ → FuseState) → ((r : ℕ) → F r ≡ at_rest 0)
        → FusesStand keeper D.Disk F world.whole.members disks.new.items) }
    ensures pairs { length disks.new.items ≡ 8 }
{
    match World::<Keeper, MemLink>::make(alloc, disks, members, ids, bytes) {
        Ok(()) => {
            what_is_made_stands::<Keeper, D>();
            match World::<Keeper, MemLink>::open(alloc, disks, MemLink::after(alloc, total)) {
                Ok(world) => Ok(world),
                Err(fault) => Err(want_of_memory(fault)),
            }
        }
        Err(fault) => Err(want_of_memory(fault)),
    }
}

// The fault of disks that neither fail nor hold anything wrong.
fn want_of_memory(fault: WorldFault) -> Memory
    requires { fault ≡ WorldFault.Memory }
{
    match fault {
        WorldFault::Memory => Memory,
        _ => unreachable!(),
    }
}
