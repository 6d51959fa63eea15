ghost use Rattle.std.specs.Prelude.{◌≡◌, ◌≤◌, [], None, Some, ℕ, List, true, false, length};
ghost use Rattle.ficus_opening.specs.Check.Judged.{IsEmptyPair};
ghost use Rattle.ficus_disk.specs.declared.pair.Pair.{Pair as PairValue};
ghost use Rattle.ficus_ids.specs.Members.{IsCount, IsMember};
ghost use Rattle.ficus_model.specs.Lawful.{Volume};
ghost use Rattle.ficus_durable_state.specs.Limits.{byte_limit, update_limit};
ghost use Rattle.ficus_opening.specs.Calls.{LooksForEmpty, MakesMember, MakesMembers, MakesVolume};
ghost use Rattle.ficus_opening.specs.Opening.{AreEmpty, AreMade, StandsOn};

use crate::WorldFault;
use crate::looking::look_at;
use ficus_disk::{Disk, Pair};
use ficus_ids::Members;
use ficus_keeper::{Keep, MakeFault};
use ficus_replica::Replica;
use ficus_stable_storage::Stable;
use std::alloc::Global;

/// Makes a fresh volume on the disks: for each member what it saves before anything has happened.
///
/// `Store` comes only where a disk of that replica failed; `Occupied` exactly where none failed when asked for its
/// size and a disk of a member holds something. After `Store` and `Memory` some first members may be made; after
/// `Store` the one at fault may be made in part, and after `Memory` its disks are as before.
pub fn make_volume<K: Keep + Drop, D: Disk>(
    alloc: Global,
    disks: &mut Vec<Pair<D>>,
    members: Members,
    ids: u32,
    bytes: u32,
) -> Result<(), WorldFault>
    requires pairs { length disks.old.items ≡ 8 }
    requires ids_at_least { 1 ≤ ids }
    requires ids_at_most { ids ≤ update_limit }
    requires bytes { bytes ≤ byte_limit }
    ensures { MakesVolume K.Keep D.Disk members ids bytes result disks.old.items disks.new.items }
{
    look_for_empty(disks, members)?;
    make_all::<K, D>(alloc, disks, members, ids, bytes)
}

// Looks whether the disks of all members are empty.
fn look_for_empty<D: Disk>(disks: &mut Vec<Pair<D>>, members: Members) -> Result<(), WorldFault>
    requires pairs { length disks.old.items ≡ 8 }
    ensures { LooksForEmpty D.Disk members result disks.old.items disks.new.items }
{
    let mut occupied = None;
    for before in 0..members.count() {
        let number = before + 1;
        let is_empty = look_at(&mut disks[usize::from(before)], number)?;
        occupied = or_occupied(occupied, is_empty, number);
    }
    match occupied {
        Some(number) => Err(WorldFault::Occupied(number)),
        None => Ok(()),
    }
}

// The first member whose disks hold something, with those of one more.
fn or_occupied(occupied: Option<u8>, is_empty: bool, number: u8) -> Option<u8>
    ensures earlier { (r : ℕ) → occupied ≡ Some r → result ≡ Some r }
    ensures empty { is_empty ≡ true → result ≡ occupied }
    ensures first { is_empty ≡ false → occupied ≡ None → result ≡ Some number }
{
    match occupied {
        None if !is_empty => Some(number),
        earlier => earlier,
    }
}

// Makes each member.
fn make_all<K: Keep + Drop, D: Disk>(
    alloc: Global,
    disks: &mut Vec<Pair<D>>,
    members: Members,
    ids: u32,
    bytes: u32,
) -> Result<(), WorldFault>
    requires pairs { length disks.old.items ≡ 8 }
    requires ids_at_least { 1 ≤ ids }
    requires ids_at_most { ids ≤ update_limit }
    requires bytes { bytes ≤ byte_limit }
    requires empty { D.tells → AreEmpty D.seen disks.old.items members }
    ensures { MakesMembers K.Keep D.Disk (record { members = members; ids = ids; bytes = bytes }) result
        disks.old.items disks.new.items }
{
    for before in 0..members.count() {
        let pair = &mut disks[usize::from(before)];
        make_one::<K, D>(alloc, pair, before + 1, members, ids, bytes)?;
    }
    Ok(())
}

/// Makes one member.
pub(crate) fn make_one<K: Keep + Drop, D: Disk>(
    alloc: Global,
    pair: &mut Pair<D>,
    me: u8,
    members: Members,
    ids: u32,
    bytes: u32,
) -> Result<(), WorldFault>
    requires me { IsMember members me }
    requires ids_at_least { 1 ≤ ids }
    requires ids_at_most { ids ≤ update_limit }
    requires bytes { bytes ≤ byte_limit }
    requires empty { D.tells → IsEmptyPair D.seen pair.old }
    ensures { MakesMember K.Keep D.Disk (record { members = members; ids = ids; bytes = bytes }) me result
        pair.old pair.new }
{
    let fresh = Replica::fresh(alloc, me, members, ids, bytes);
    match Stable::<K>::make(alloc, pair, &fresh.saved) {
        Ok(()) => Ok(()),
        Err(MakeFault::Failed) => Err(WorldFault::Store(me)),
        Err(MakeFault::Memory) => Err(WorldFault::Memory),
    }
}

/// The law that what was made stands for the history without events. It does nothing when it runs.
pub fn what_is_made_stands<K: Keep + Drop, D: Disk>()
    ensures { (volume : Volume) (disks : List (PairValue D)) → IsCount volume.members → 1 ≤ volume.ids
        → volume.ids ≤ update_limit → volume.bytes ≤ byte_limit → AreMade K.kept D.seen volume disks
        → StandsOn K.kept D.seen volume [] disks }
{}
