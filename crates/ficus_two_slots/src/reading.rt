// How the bytes of both disks are read.
ghost use Rattle.std.specs.Prelude.{◌≡◌};
ghost use Rattle.ficus_keeper.specs.Calls.{CountsOpening, Keeps, StaysUnarmed};
ghost use Rattle.ficus_keeper.specs.Fuses.{both_unarmed, fuses_of};
ghost use Rattle.ficus_two_slots.specs.Reading.{ReadsBoth};

use ficus_disk::{Disk, Pair};
use ficus_keeper::StoreFault;
use ficus_slot::read_all;
use std::alloc::Global;

/// Syncs both disks, and reads all their bytes. `NoImage` never comes.
pub fn read_both<D: Disk>(
    alloc: Global,
    disks: &mut Pair<D>,
) -> Result<(Vec<u8>, Vec<u8>), StoreFault>
    ensures reads { ReadsBoth D.Disk disks.old disks.new result }
    ensures keeps { Keeps D.tells D.tells_moments D.seen D.may_leave D.moment D.left_since disks.old disks.new }
    ensures counts { CountsOpening D.faults D.armings disks.old disks.new result }
    ensures unarmed { D.tells_fuse → fuses_of D.fuse disks.old ≡ both_unarmed
        → StaysUnarmed D.fuse StoreFault.Failed disks.new result }
{
    disks.a.sync()?;
    disks.b.sync()?;
    let a = read_all(alloc, &mut disks.a)?;
    let b = read_all(alloc, &mut disks.b)?;
    Ok((a, b))
}
