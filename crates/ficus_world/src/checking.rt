ghost use Rattle.std.specs.Prelude.{◌≡◌, length};
ghost use Rattle.ficus_ids.specs.Members.{IsMember};
ghost use Rattle.ficus_opening.specs.Calls.{ChecksDisks};

use crate::World;
use ficus_disk::{Disk, Pair};
use ficus_keeper::Keep;
use ficus_opening::check::Checked;
use ficus_opening::{WorldFault, check_disks};
use ficus_outside::Link;
use std::alloc::Global;

impl<K: Keep + Drop, L: Link + Drop> World<K, L> {
    /// Judges what the disks of one replica hold, by what is said of this replica alone: nothing; something, and
    /// nothing of its own with which a world may be opened; or what it saved, of which the numbers are told. There are
    /// eight pairs, and `number` is from 1 to 8. It writes no byte, whatever it answers, though it may sync both disks;
    /// and no other disk is asked for anything.
    ///
    /// `Store` comes only where a disk of this replica failed, and wherever one did; `Occupied` and `Image` never come.
    /// `Memory` may come at any time.
    pub fn check<D: Disk>(
        alloc: Global,
        disks: &mut Vec<Pair<D>>,
        number: u8,
    ) -> Result<Checked, WorldFault>
        requires pairs { length disks.old.items ≡ 8 }
        requires number { IsMember 8 number }
        ensures { ChecksDisks K.Keep D.Disk number result disks.old.items disks.new.items }
    {
        check_disks::<K, D>(alloc, disks, number)
    }
}
