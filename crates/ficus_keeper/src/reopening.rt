ghost use Rattle.std.specs.Prelude.{IsErrOf, IsOk};
ghost use Rattle.ficus_keeper.specs.Calls.{Counts, CountsOpening, Crashes, Finds};
ghost use Rattle.ficus_keeper.specs.Fuses.{Reopens};

use crate::{Keep, Opened, StoreFault};
use ficus_disk::{Disk, Pair};
use ficus_faults::Failed;
use std::alloc::Global;

/// Opens both disks anew, and reads what is kept.
pub fn reopen<K: Keep, D: Disk>(
    alloc: Global,
    disks: &mut Pair<D>,
) -> Result<(K, Opened), StoreFault>
    ensures told { D.tells → Finds K.kept K.fits D.seen D.may_leave disks.new disks.new result }
    ensures crashes { Crashes D.tells D.tells_moments D.seen D.may_leave D.moment D.left_since disks.old disks.new }
    ensures counts { CountsOpening D.faults D.armings disks.old disks.new result }

    // Where the disks tell their fuses, it never fails, and each becomes the image of its pick.
    ensures never { D.tells_fuse → IsErrOf result StoreFault.Failed → ⊥ }
    ensures by_fuse { D.tells_fuse → D.tells → Reopens D.seen D.image D.fuse disks.old disks.new }
{
    both_again(disks)?;
    K::open(alloc, disks)
}

// Opens both disks anew.
fn both_again<D: Disk>(disks: &mut Pair<D>) -> Result<(), Failed>
    ensures crashes { Crashes D.tells D.tells_moments D.seen D.may_leave D.moment D.left_since disks.old disks.new }
    ensures counts { Counts D.faults D.armings disks.old disks.new result }
    ensures by_fuse { D.tells_fuse → IsOk result × Reopens D.seen D.image D.fuse disks.old disks.new }
{
    disks.a.again()?;
    disks.b.again()
}
