ghost use Rattle.std.specs.Prelude.{◌<◌, length, IfOk};
ghost use Rattle.ficus_script.specs.Command.{IsCommand, IsStep};
ghost use Rattle.ficus_world.specs.Calls.{Steps};
ghost use Rattle.ficus_world.specs.Disks.{IsBacked};
ghost use Rattle.ficus_world.specs.Machines.Acting.{ActsFor, TakesFor};
ghost use Rattle.ficus_world.specs.World.{event_limit};

use crate::World;
use ficus_disk::{Disk, Pair};
use ficus_ids::{Memory, Refusal};
use ficus_keeper::Keep;
use ficus_outside::Link;
use ficus_script::{Answer, Command};
use std::alloc::Global;

/// Carries out a command of a machine's own member, as `World::step` does. What it does is what a machine may do alone:
/// machines that are one world are one afterwards.
pub fn act<K: Keep + Drop, L: Link + Drop, D: Disk>(
    alloc: Global,
    world: &mut World<K, L>,
    disks: &mut Vec<Pair<D>>,
    command: &Command,
) -> Result<Answer, Memory>
    requires command { IsCommand command.now }
    requires step { IsStep command.now }
    requires room { length world.old.whole.events < event_limit }
    requires backed { IsBacked K.Keep D.Disk world.old disks.old.items }
    ensures acts { L.tells → IfOk result (λ answer.
        ActsFor L.tells D.tells command.now answer world.old.whole world.new.whole) }
    ensures steps { Steps L.tells K.Keep D.Disk command.now result world.old world.new disks.old disks.new }
{
    world.settled(disks);
    world.step(alloc, disks, command)
}

/// A message has come for a machine's own member, which takes it: an ask is served, and a piece of an answer is taken.
/// Whoever calls it has looked that the message goes to this member.
///
/// Refused as `World::hear` does. After `Memory` the message may be there already, which nobody has to know.
pub fn take<K: Keep + Drop, L: Link + Drop, D: Disk>(
    alloc: Global,
    world: &mut World<K, L>,
    disks: &mut Vec<Pair<D>>,
    bytes: Vec<u8>,
) -> Result<Answer, Refusal>
    requires room { length world.old.whole.events < event_limit }
    requires backed { IsBacked K.Keep D.Disk world.old disks.old.items }
    ensures takes { L.tells → IfOk result (λ answer.
        TakesFor L.tells D.tells bytes.items answer world.old.whole world.new.whole) }
    ensures backed { IsBacked K.Keep D.Disk world.new disks.new.items }
{
    let mail = world.hear(bytes)?;
    let answer = act(alloc, world, disks, &Command::Give { mail })?;
    Ok(answer)
}
