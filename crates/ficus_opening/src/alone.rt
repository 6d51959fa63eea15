ghost use Rattle.std.specs.Prelude.{◌≡◌, ◌+◌, ◌≤◌, length};
ghost use Rattle.ficus_disk.specs.declared.pair.Pair.{Pair as PairValue};
ghost use Rattle.ficus_durable_state.specs.Limits.{byte_limit, update_limit};
ghost use Rattle.ficus_durable_state.specs.Saved.{FitsImage};
ghost use Rattle.ficus_ids.specs.Members.{IsCount, IsMember};
ghost use Rattle.ficus_runs.specs.Numbered.{IsNumbered};
ghost use Rattle.ficus_stable_storage.specs.Stable.{IsReady};
ghost use Rattle.ficus_opening.specs.Alone.{AreKept, EntersAbsent, EntersAll, MakesAbsent, OpensAlone};
ghost use Rattle.ficus_opening.specs.Check.Judged.{IsOwn};

use crate::WorldFault;
use crate::looking::look_at;
use crate::making::make_one;
use crate::member::{Member, MemberState};
use crate::opening::{Opened, enter, enter_member, is_fused, none_opened, open_one};
use ficus_disk::{Disk, Pair};
use ficus_ids::Members;
use ficus_keeper::Keep;
use ficus_replica::Replica;
use ficus_stable_storage::{Recovered, Stable, one_saved};
use std::alloc::Global;

/// Opens the disks of one member alone, of a volume whose other members are elsewhere. There are eight pairs, of which
/// the one with the member's number is its own; those of the others hold nothing. On these the other members are made
/// as they were when the volume was made, and they are down. It writes no byte to the member's own disks.
///
/// `Store` comes only where a disk of that pair failed; `Image` exactly where the member's disks hold nothing of its
/// own with which a world may be opened; `Occupied` exactly where the pair of another member holds something. After a
/// fault others may be made.
pub fn open_alone<K: Keep + Drop, D: Disk>(
    alloc: Global,
    disks: &mut Vec<Pair<D>>,
    me: u8,
) -> Result<Opened<K>, WorldFault>
    requires pairs { length disks.old.items ≡ 8 }
    requires me { IsMember 8 me }
    ensures { OpensAlone K.Keep D.Disk me result disks.old.items disks.new.items }
{
    one_saved();
    let own = open_one::<K, D>(alloc, &mut disks[usize::from(me) - 1], me)?;
    enter_all(alloc, disks, me, own)
}

// Enters the member of which this was read, and all others of its
fn enter_all<K: Keep + Drop, D: Disk>(
    alloc: Global,
    disks: &mut Vec<Pair<D>>,
    me: u8,
    own: Recovered<K>,
) -> Result<Opened<K>, WorldFault>
    requires pairs { length disks.old.items ≡ 8 }
    requires fits { FitsImage own.saved }
    requires own { IsOwn own.saved me }
    requires ready { D.tells → (pair : PairValue D) → IsNumbered disks.old.items me pair
        → IsReady K.kept K.fits D.seen D.may_leave own.stable pair own.saved }
    ensures { EntersAll K.Keep D.Disk me own.saved result disks.old.items disks.new.items }
{
    let Recovered { stable, saved } = own;
    let (members, ids, bytes) = (saved.members, saved.ids, saved.bytes);
    let fused = is_fused(&disks[usize::from(me) - 1]);
    let mut opened = none_opened(alloc)?;
    enter_absent(alloc, &mut opened, disks, 0, me - 1, members, ids, bytes)?;
    enter(&mut opened, stable, saved, fused)?;
    enter_absent(
        alloc,
        &mut opened,
        disks,
        me,
        members.count(),
        members,
        ids,
        bytes,
    )?;
    Ok(opened)
}

// Enters the members behind so many up to this number, all of which are elsewhere.
fn enter_absent<K: Keep + Drop, D: Disk>(
    alloc: Global,
    opened: &mut Opened<K>,
    disks: &mut Vec<Pair<D>>,
    before: u8,
    to: u8,
    members: Members,
    ids: u32,
    bytes: u32,
) -> Result<(), WorldFault>
    requires pairs { length disks.old.items ≡ 8 }
    requires before { before ≡ length opened.old.members.items }
    requires to { before ≤ to }
    requires count { IsCount members }
    requires members { to ≤ members }
    requires ids_at_least { 1 ≤ ids }
    requires ids_at_most { ids ≤ update_limit }
    requires bytes { bytes ≤ byte_limit }
    requires kept { AreKept K.Keep D.Disk opened.old disks.old.items }
    ensures { EntersAbsent K.Keep D.Disk (record { members = members; ids = ids; bytes = bytes })
        before to result opened.old opened.new disks.old.items disks.new.items }
{
    for behind in before..to {
        enter_next(alloc, opened, disks, behind, members, ids, bytes)?;
    }
    Ok(())
}

// Enters the next member, which is elsewhere.
fn enter_next<K: Keep + Drop, D: Disk>(
    alloc: Global,
    opened: &mut Opened<K>,
    disks: &mut Vec<Pair<D>>,
    before: u8,
    members: Members,
    ids: u32,
    bytes: u32,
) -> Result<(), WorldFault>
    requires pairs { length disks.old.items ≡ 8 }
    requires before { before ≡ length opened.old.members.items }
    requires count { IsCount members }
    requires member { IsMember members (before + 1) }
    requires ids_at_least { 1 ≤ ids }
    requires ids_at_most { ids ≤ update_limit }
    requires bytes { bytes ≤ byte_limit }
    requires kept { AreKept K.Keep D.Disk opened.old disks.old.items }
    ensures { EntersAbsent K.Keep D.Disk (record { members = members; ids = ids; bytes = bytes })
        before (before + 1) result opened.old opened.new disks.old.items disks.new.items }
{
    let index = usize::from(before);
    let number = before + 1;
    let stable = make_absent::<K, D>(alloc, &mut disks[index], number, members, ids, bytes)?;
    let replica = Replica::fresh(alloc, number, members, ids, bytes);
    let fused = is_fused(&disks[index]);
    let member = Member {
        replica,
        parts: None,
        state: MemberState::Down(None),
        fused,
    };
    enter_member(opened, member, stable)?;
    Ok(())
}

// Makes a member that is elsewhere, on disks that hold nothing, and opens them.
fn make_absent<K: Keep + Drop, D: Disk>(
    alloc: Global,
    pair: &mut Pair<D>,
    number: u8,
    members: Members,
    ids: u32,
    bytes: u32,
) -> Result<Stable<K>, WorldFault>
    requires count { IsCount members }
    requires member { IsMember members number }
    requires ids_at_least { 1 ≤ ids }
    requires ids_at_most { ids ≤ update_limit }
    requires bytes { bytes ≤ byte_limit }
    ensures { MakesAbsent K.Keep D.Disk (record { members = members; ids = ids; bytes = bytes })
        number result pair.old pair.new }
{
    one_saved();
    let is_empty = look_at(pair, number)?;
    if !is_empty {
        return Err(WorldFault::Occupied(number));
    }
    make_one::<K, D>(alloc, pair, number, members, ids, bytes)?;
    let Recovered { stable, saved: _ } = open_one(alloc, pair, number)?;
    Ok(stable)
}
