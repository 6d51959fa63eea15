ghost use Rattle.ficus_opening.specs.Disks.{AreDisksOf};
ghost use Rattle.ficus_world.specs.Kills.{IsSettled};

use crate::World;
use ficus_disk::{Disk, Pair};
use ficus_keeper::Keep;
use ficus_outside::Link;

impl<K: Keep + Drop, L: Link + Drop> World<K, L> {
    /// The law that whatever a crash leaves of a world's disks holds what each member has saved, or what is pending. It
    /// does nothing when it runs.
    pub fn settled<D: Disk>(&self, disks: &Vec<Pair<D>>)
        requires { AreDisksOf K.Keep D.Disk self.now.whole.members self.now.stables disks.now.items }
        ensures { IsSettled K.Keep D.Disk self.now.whole disks.now.items }
    {
        // Reading its fields tells what holds of every world.
        let _ = &self.stables;
        let _ = &self.group.members;
    }
}
