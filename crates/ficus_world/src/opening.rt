ghost use Rattle.std.specs.Prelude.{◌≡◌, ◌≤◌, [], length, IfOk};
ghost use Rattle.ficus_durable_state.specs.Limits.{byte_limit, update_limit};
ghost use Rattle.ficus_runs.specs.Start.{restarts};
ghost use Rattle.ficus_opening.specs.Calls.{MakesVolume};
ghost use Rattle.ficus_world.specs.Calls.{OpensWorld};

use crate::World;
use crate::group::Group;
use crate::post::Post;
use ficus_disk::{Disk, Pair};
use ficus_ids::{Members, Memory};
use ficus_keeper::Keep;
use ficus_model::{Event, History};
use ficus_opening::{Opened, WorldFault, make_volume, open_all};
use ficus_outside::Link;
use ficus_stable_storage::one_saved;
use std::alloc::Global;

impl<K: Keep + Drop, L: Link + Drop> World<K, L> {
    /// Makes a fresh volume on the disks: for each member what it saves before anything has happened.
    ///
    /// `Store` comes only where a disk of that replica failed; `Occupied` exactly where none failed when asked for its
    /// size and a disk of a member holds something. After `Store` and `Memory` some first members may be made; after
    /// `Store` the one at fault may be made in part, and after `Memory` its disks are as before.
    pub fn make<D: Disk>(
        alloc: Global,
        disks: &mut Vec<Pair<D>>,
        members: Members,
        ids: u32,
        bytes: u32,
    ) -> Result<(), WorldFault>
        requires pairs { length disks.old.items ≡ 8 }
        requires ids_at_least { 1 ≤ ids }
        requires ids_at_most { ids ≤ update_limit }
        requires bytes { bytes ≤ byte_limit }
        ensures { MakesVolume K.Keep D.Disk members ids bytes result disks.old.items disks.new.items }
    {
        make_volume::<K, D>(alloc, disks, members, ids, bytes)
    }

    /// Opens the world that the disks hold, over a link without messages. The history is one restart of each member. It
    /// writes no byte to a disk. After a fault the link is dropped.
    ///
    /// `Store` comes only where a disk of that replica, a member, failed; `Image` exactly where its disks hold no image
    /// with which a world may be opened.
    pub fn open<D: Disk>(
        alloc: Global,
        disks: &mut Vec<Pair<D>>,
        link: L,
    ) -> Result<World<K, L>, WorldFault>
        requires pairs { length disks.old.items ≡ 8 }
        requires link { L.posts link ≡ [] }
        ensures { OpensWorld K.Keep D.Disk (L.faults link) (L.total link) result disks.old.items disks.new.items }
    {
        one_saved();
        let Opened { members, stables } = open_all(alloc, disks)?;
        let count = members[0].replica.saved.members;
        let group = Group {
            members,
            history: restart_all(alloc, count)?,
            post: Post::new(alloc, link),
        };
        Ok(World { group, stables })
    }
}

// One restart of each member.
fn restart_all(alloc: Global, members: Members) -> Result<History, Memory>
    ensures { IfOk result (λ history. history.events ≡ restarts members) }
{
    let count = members.count();
    let mut history = History::new(alloc);
    history.reserve(u32::from(count))?;
    for before in 0..count {
        history.push(Event::Restart { by: before + 1 });
    }
    Ok(history)
}
