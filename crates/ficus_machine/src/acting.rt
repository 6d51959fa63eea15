ghost use Rattle.std.specs.Prelude.{◌≡◌, ◌⊎◌, IfOk, OnErr};
ghost use Rattle.ficus_ids.specs.Members.{IsMember};
ghost use Rattle.ficus_machine.specs.Acting.{Acts, IsAlone};
ghost use Rattle.ficus_script.specs.Command.{IsCommand, IsStep};
ghost use Rattle.ficus_world.specs.Disks.{IsBacked};
ghost use Rattle.ficus_world.specs.Kills.{IsDeedOf, Passes};

use crate::Machine;
use crate::fault::LineFault;
use ficus_disk::{Disk, Pair};
use ficus_keeper::Keep;
use ficus_script::{Answer, Command};
use ficus_world::machines::act;
use std::alloc::Global;

/// No more events are stored than this, since a position is below 2^32. A history of so many needs more memory than a
/// process has.
const EVENT_LIMIT: u32 = 4_294_000_000;

impl<K: Keep + Drop> Machine<K> {
    /// Carries out a command of its member in its world. Nothing has changed there after `Memory`.
    pub(crate) fn act<D: Disk>(
        &mut self,
        alloc: Global,
        disks: &mut Vec<Pair<D>>,
        command: &Command,
    ) -> Result<Answer, LineFault>
        requires command { IsCommand command.now }
        requires step { IsStep command.now }
        requires alone { IsAlone command.now }
        requires backed { IsBacked K.Keep D.Disk self.old.world disks.old.items }
        ensures acts { Acts K.Keep D.Disk command.now result self.old self.new disks.old.items disks.new.items }
        ensures passes { Passes (Unit {0}) K.Keep D.Disk (IsDeedOf command.now) self.old.world.whole
            self.new.world.whole disks.old.items disks.new.items
            ⊎ ((self.new.world.whole ≡ self.old.world.whole) × (disks.new.items ≡ disks.old.items)) }
    {
        if self.world.history().len() >= EVENT_LIMIT {
            return Err(LineFault::Memory);
        }
        Ok(act(alloc, &mut self.world, disks, command)?)
    }
}
