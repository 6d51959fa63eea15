ghost use Rattle.std.specs.Prelude.{◌≡◌, ◌≤◌, ℕ, [], length, IfErr, IsErrOf, OnOk};
ghost use Rattle.ficus_top.specs.Summary.Keeper.{keeper, kept_in};
ghost use Rattle.ficus_top.specs.Ending.{IsOfMaking};
ghost use Rattle.ficus_top.specs.Making.{FitsSize, volume_of};
ghost use Rattle.ficus_top.specs.Storing.{TellsOfMaking};
ghost use Rattle.ficus_opening.specs.Calls.{MakesVolume};
ghost use Rattle.ficus_opening.specs.declared.fault.WorldFault.{WorldFault as WorldFaultValue};
ghost use Rattle.ficus_opening.specs.Rests.{OthersStay};
ghost use Rattle.ficus_opening.specs.Opening.{AreEmpty, AreMadeInPart, AreSynced, IsAtFault, IsUnfailed, StandsOn, Steady};

use crate::fault::Fault;
use crate::summary::Keeper;
use ficus_disk::{Disk, Pair};
use ficus_opening::{WorldFault, what_is_made_stands};
use ficus_outside::MemLink;
use ficus_words::Size;
use ficus_world::World;
use std::alloc::Global;

/// Makes a fresh volume of this size.
pub(crate) fn init<D: Disk>(
    alloc: Global,
    size: Size,
    disks: &mut Vec<Pair<D>>,
) -> Result<(), Fault>
    requires size { FitsSize size }
    requires pairs { length disks.old.items ≡ 8 }
    ensures kinds { IfErr result IsOfMaking }
    ensures made { D.tells → OnOk result (StandsOn kept_in D.seen (volume_of size) [] disks.new.items) }
    ensures makes { TellsOfMaking D.Disk size.members result disks.old.items disks.new.items }
    ensures partly { D.tells → AreEmpty D.seen disks.old.items size.members
        → AreSynced D.seen D.may_leave disks.old.items size.members
        → (fault : WorldFaultValue) → IsErrOf result (Fault.Storing fault)
        → AreMadeInPart kept_in D.Disk (volume_of size) disks.old.items disks.new.items fault }
    ensures others { OthersStay size.members disks.old.items disks.new.items }
    ensures spared { (fault : WorldFaultValue) → IsUnfailed fault → IsErrOf result (Fault.Storing fault)
        → Steady D.faults disks.old.items disks.new.items }
    ensures failed { (r : ℕ) → IsErrOf result (Fault.Storing (WorldFault.Store r))
        → IsAtFault D.faults disks.old.items disks.new.items r }
    ensures member { (r : ℕ) → IsErrOf result (Fault.Storing (WorldFault.Store r)) → r ≤ size.members }
    ensures synced { D.tells → AreSynced D.seen D.may_leave disks.old.items size.members
        → OnOk result (AreSynced D.seen D.may_leave disks.new.items size.members) }
    ensures steady { OnOk result (Steady D.faults disks.old.items disks.new.items) }
    ensures unarmed { Steady D.armings disks.old.items disks.new.items }
{
    Ok(make(alloc, size, disks)?)
}

/// Makes a fresh volume of this size, and tells the world's own fault. What is made stands for the empty history.
pub(crate) fn make<D: Disk>(
    alloc: Global,
    size: Size,
    disks: &mut Vec<Pair<D>>,
) -> Result<(), WorldFault>
    requires size { FitsSize size }
    requires pairs { length disks.old.items ≡ 8 }
    ensures makes { MakesVolume keeper D.Disk size.members size.ids size.bytes result disks.old.items
        disks.new.items }
    ensures stands { D.tells → OnOk result (StandsOn kept_in D.seen (volume_of size) [] disks.new.items) }
{
    let made = World::<Keeper, MemLink>::make(alloc, disks, size.members, size.ids, size.bytes);
    what_is_made_stands::<Keeper, D>();
    made
}
