ghost use Rattle.std.specs.Prelude.{◌≡◌, [], ◌∷◌, length, IfOk};
ghost use Rattle.ficus_ids.specs.Members.{IsMember};
ghost use Rattle.ficus_model.specs.declared.event.Event.TheVariants.{Restart};
ghost use Rattle.ficus_world.specs.Machines.Alone.{OpensWorldAlone};

use crate::World;
use crate::group::Group;
use crate::post::Post;
use ficus_disk::{Disk, Pair};
use ficus_ids::Memory;
use ficus_keeper::Keep;
use ficus_model::{Event, History};
use ficus_opening::{Opened, WorldFault, open_alone};
use ficus_outside::Link;
use ficus_stable_storage::one_saved;
use std::alloc::Global;

impl<K: Keep + Drop, L: Link + Drop> World<K, L> {
    /// Opens the world of one member of a volume whose other members are elsewhere, over a link without messages. There
    /// are eight pairs, of which the one with the member's number is its own; those of the others hold nothing. On
    /// these the other members are made as they were when the volume was made, and they are down, for good. The history
    /// is one restart of the member. It writes no byte to the member's own disks. After a fault the link is dropped.
    ///
    /// `Store` comes only where a disk of that pair failed; `Image` exactly where the member's disks hold nothing of
    /// its own with which a world may be opened; `Occupied` exactly where the pair of another member holds something.
    pub fn open_alone<D: Disk>(
        alloc: Global,
        disks: &mut Vec<Pair<D>>,
        me: u8,
        link: L,
    ) -> Result<World<K, L>, WorldFault>
        requires pairs { length disks.old.items ≡ 8 }
        requires me { IsMember 8 me }
        requires link { L.posts link ≡ [] }
        ensures { OpensWorldAlone K.Keep D.Disk me (L.faults link) (L.total link) result disks.old.items
            disks.new.items }
    {
        one_saved();
        let history = restart_of(alloc, me)?;
        let Opened { members, stables } = open_alone(alloc, disks, me)?;
        let group = Group {
            members,
            history,
            post: Post::new(alloc, link),
        };
        Ok(World { group, stables })
    }
}

// A restart of this member.
fn restart_of(alloc: Global, by: u8) -> Result<History, Memory>
    ensures { IfOk result (λ history. history.events ≡ Restart by ∷ []) }
{
    let mut history = History::new(alloc);
    history.reserve(1)?;
    history.push(Event::Restart { by });
    Ok(history)
}
