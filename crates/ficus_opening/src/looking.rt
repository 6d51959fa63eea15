ghost use Rattle.std.specs.Prelude.{◌≡◌, ◌↔◌, Err, IfOk, IsOk, IsTrue, OnErr, OnOk};
ghost use Rattle.ficus_opening.specs.Check.Judged.{IsEmptyPair};
ghost use Rattle.ficus_disk.specs.Pair.{PairRose};
ghost use Rattle.ficus_keeper.specs.Fuses.{both_unarmed, fuses_of};
ghost use Rattle.ficus_keeper.specs.Pairs.{PairSame};
ghost use Rattle.ficus_opening.specs.Calls.{LooksAt};
ghost use Rattle.ficus_opening.specs.Opening.{IsSynced};
ghost use Rattle.ficus_opening.specs.Rests.{PairRests};

use crate::WorldFault;
use ficus_disk::{Disk, Pair};
use ficus_faults::Failed;

/// Whether both disks of this member hold nothing. `Store` comes exactly where one of them fails; it writes nothing.
pub fn look_at<D: Disk>(pair: &mut Pair<D>, number: u8) -> Result<bool, WorldFault>
    ensures { LooksAt D.Disk number result pair.old pair.new }
{
    match is_empty(pair) {
        Ok(is_empty) => Ok(is_empty),
        Err(Failed) => Err(WorldFault::Store(number)),
    }
}

// Whether both disks of a pair hold nothing.
fn is_empty<D: Disk>(pair: &mut Pair<D>) -> Result<bool, Failed>
    ensures empty { D.tells → IfOk result (λ is. IsTrue is ↔ IsEmptyPair D.seen pair.old) }
    ensures same { D.tells → PairSame D.seen pair.old pair.new }
    ensures synced { D.tells → IsSynced D.seen D.may_leave pair.old → IsSynced D.seen D.may_leave pair.new }
    ensures rests { PairRests D.Disk pair.old pair.new }
    ensures risen { OnErr result (PairRose D.faults 1 pair.old pair.new) }
    ensures steady { OnOk result (PairSame D.faults pair.old pair.new) }
    ensures armings { PairSame D.armings pair.old pair.new }
    ensures fuses { D.tells_fuse → fuses_of D.fuse pair.new ≡ fuses_of D.fuse pair.old }
    ensures never { D.tells_fuse → fuses_of D.fuse pair.old ≡ both_unarmed → IsOk result }
{
    let a = pair.a.size()?;
    let b = pair.b.size()?;
    Ok(a == 0 && b == 0)
}
