ghost use Rattle.std.specs.Prelude.{◌≡◌, ◌↔◌, IfOk, IsErrOf, IsTrue, OnOk};
ghost use Rattle.ficus_opening.specs.Check.Judged.{HoldsNoneOf, IsOfVolume, IsOwn};
ghost use Rattle.ficus_disk.specs.Pair.{PairRose};
ghost use Rattle.ficus_keeper.specs.Fuses.{both_unarmed, fuses_of};
ghost use Rattle.ficus_keeper.specs.Moments.{PairLeavesOld, PairSpans};
ghost use Rattle.ficus_keeper.specs.Pairs.{PairSame, PairWithin};
ghost use Rattle.ficus_durable_state.specs.Saved.{FitsImage};
ghost use Rattle.ficus_stable_storage.specs.Stable.{IsReady};

use ficus_disk::{Disk, Pair};
use ficus_durable_state::Saved;
use ficus_keeper::{Keep, StoreFault};
use ficus_stable_storage::{Recovered, Stable, one_saved};
use std::alloc::Global;

/// Reads what the disks of this replica hold, and writes nothing. `NoImage` comes exactly where they hold nothing of
/// its own with which a world may be opened, whatever the others hold; `Failed` only where a disk failed, and wherever
/// one did; `Memory` at any time.
pub fn open_own<K: Keep + Drop, D: Disk>(
    alloc: Global,
    disks: &mut Pair<D>,
    number: u8,
) -> Result<Recovered<K>, StoreFault>
    ensures fits { IfOk result (λ found. FitsImage found.saved) }
    ensures own { IfOk result (λ found. IsOwn found.saved number) }
    ensures ready { D.tells → IfOk result (λ found.
        IsReady K.kept K.fits D.seen D.may_leave found.stable disks.new found.saved) }
    ensures none { D.tells → IsErrOf result StoreFault.NoImage → HoldsNoneOf K.kept D.seen number disks.old }
    ensures same { D.tells → PairSame D.seen disks.old disks.new }
    ensures crash { PairWithin D.may_leave disks.old disks.new }
    ensures moments { PairLeavesOld D.moment D.left_since D.may_leave disks.old disks.new }
    ensures spans { D.tells_moments → PairSpans D.moment D.left_since disks.old disks.new }
    ensures armings { PairSame D.armings disks.old disks.new }
    ensures failed { IsErrOf result StoreFault.Failed → PairRose D.faults 1 disks.old disks.new }
    ensures steady { OnOk result (PairSame D.faults disks.old disks.new) }
    ensures spared { IsErrOf result StoreFault.Memory → PairSame D.faults disks.old disks.new }
    ensures nothing { IsErrOf result StoreFault.NoImage → PairSame D.faults disks.old disks.new }
    ensures risen { PairRose D.faults 0 disks.old disks.new }

    // Without an armed fuse nothing fails.
    ensures never { D.tells_fuse → fuses_of D.fuse disks.old ≡ both_unarmed → IsErrOf result StoreFault.Failed → ⊥ }
    ensures unarmed { D.tells_fuse → fuses_of D.fuse disks.old ≡ both_unarmed
        → fuses_of D.fuse disks.new ≡ both_unarmed }
{
    let found = Stable::open(alloc, disks)?;
    if is_own(&found.saved, number) {
        Ok(found)
    } else {
        one_saved();
        Err(StoreFault::NoImage)
    }
}

/// A world is opened from fewer saves than this of each member, so that each has a generation for every command to
/// come.
const GENERATION_LIMIT: u64 = 1 << 62;

// Whether this is what the replica of this number saved, and a world may be opened with it.
fn is_own(saved: &Saved, number: u8) -> bool
    ensures { IsTrue result ↔ IsOwn saved.now number }
{
    saved.me == number && saved.generation < GENERATION_LIMIT
}

/// Whether this is of the same volume as what the first member saved.
pub fn is_of_volume(first: &Saved, saved: &Saved) -> bool
    ensures { IsTrue result ↔ IsOfVolume first.now saved.now }
{
    saved.members == first.members && saved.ids == first.ids && saved.bytes == first.bytes
}
