// One member's disks, of those of all.
ghost use Rattle.std.specs.Prelude.{ℕ, ◌<◌, ◌≤◌, List, length, OnOk};
ghost use Rattle.ficus_disk.specs.declared.pair.Pair.{Pair as PairValue};
ghost use Rattle.ficus_ids.specs.Members.{IsMember};
ghost use Rattle.ficus_durable_state.specs.Saved.{FitsImage};
ghost use Rattle.ficus_keeper.specs.Framed.{body_in, head_size};
ghost use Rattle.ficus_stable_storage.specs.Stable.{MayFollow};
ghost use Rattle.ficus_stable_storage.specs.declared.stable.Stable.{Stable as StableValue};
ghost use Rattle.ficus_runs.specs.Numbered.{IsNumbered};
ghost use Rattle.ficus_world.specs.Disks.{IsPreparedAt};
ghost use Rattle.ficus_world.specs.Acts.{StaysAt};
ghost use Rattle.ficus_world.specs.Calls.{ArmsAt, CommitsAt, ReopensPair};

use ficus_disk::{Disk, Pair};
use ficus_durable_state::Saved;
use ficus_faults::Failed;
use ficus_ids::Memory;
use ficus_keeper::{Keep, StoreFault};
use ficus_stable_storage::{Stable, one_saved};
use std::alloc::Global;

/// Takes all memory for what a member saves next, by the record of its event, in a frame. What the disks hold is as
/// before, also where memory is refused.
pub(crate) fn prepare_at<K: Keep + Drop, D: Disk>(
    stables: &mut Vec<Stable<K>>,
    disks: &mut Vec<Pair<D>>,
    by: u8,
    next: &Saved,
    noted: Vec<u8>,
) -> Result<(), Memory>
    requires member { IsMember (length stables.old.items) by }
    requires pair { IsMember (length disks.old.items) by }
    requires fits { FitsImage next.now }
    requires head { head_size ≤ length noted.items }
    ensures prepared { OnOk result (IsPreparedAt K.wants_image K.Allows K.size_of D.room stables.new.items
        disks.new.items by next.now (body_in noted.items)) }
    ensures stays { StaysAt K.Keep D.Disk by stables.old.items stables.new.items disks.old.items disks.new.items }
{
    let index = by as usize - 1;
    stables[index].prepare(&mut disks[index], next, noted)
}

/// Saves what was prepared. Takes no memory.
pub(crate) fn commit_at<K: Keep + Drop, D: Disk>(
    stables: &mut Vec<Stable<K>>,
    disks: &mut Vec<Pair<D>>,
    by: u8,
    next: &Saved,
) -> Result<(), Failed>
    requires member { IsMember (length stables.old.items) by }
    requires pair { IsMember (length disks.old.items) by }
    requires prepared { (body : List ℕ)
        × IsPreparedAt K.wants_image K.Allows K.size_of D.room stables.old.items disks.old.items by next.now body
        × (D.tells → (stable : StableValue K) (pair : PairValue D) → IsNumbered stables.old.items by stable
        → IsNumbered disks.old.items by pair → MayFollow K.kept K.fits D.seen D.may_leave stable pair next.now body) }
    ensures { CommitsAt K.Keep D.Disk by next.now result stables.old.items stables.new.items disks.old.items
        disks.new.items }
{
    let index = by as usize - 1;
    stables[index].commit(&mut disks[index], next)
}

/// Opens the disks of a member again, and reads what they then hold.
pub(crate) fn reopen_at<K: Keep + Drop, D: Disk>(
    alloc: Global,
    stables: &mut Vec<Stable<K>>,
    disks: &mut Vec<Pair<D>>,
    by: u8,
) -> Result<Saved, StoreFault>
    requires member { IsMember (length stables.old.items) by }
    requires pair { IsMember (length disks.old.items) by }
    ensures { ReopensPair K.Keep D.Disk by result stables.old.items stables.new.items disks.old.items disks.new.items }
{
    one_saved();
    let index = by as usize - 1;
    match Stable::reopen(alloc, &mut disks[index]) {
        Ok(found) => {
            stables[index] = found.stable;
            Ok(found.saved)
        }
        Err(fault) => Err(fault),
    }
}

/// Arms both disks of a member that has a fuse on both. What they hold is as before.
pub(crate) fn arm_at<K: Keep + Drop, D: Disk>(
    disks: &mut Vec<Pair<D>>,
    by: u8,
    calls: u32,
    pick: u8,
)
    requires pair { IsMember (length disks.old.items) by }
    requires pick { pick < 4 }
    ensures { ArmsAt K.Keep D.Disk by calls pick disks.old.items disks.new.items }
{
    let pair = &mut disks[by as usize - 1];
    pair.a.arm(calls, pick);
    pair.b.arm(calls, pick);
}
