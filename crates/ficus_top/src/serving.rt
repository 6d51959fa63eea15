ghost use Rattle.std.specs.Prelude.{◌≡◌, ◌⊎◌, ◌+◌, ◌<◌, ◌≤◌, length, All};
ghost use Rattle.ficus_model.specs.Lawful.{Volume};
ghost use Rattle.ficus_faults.specs.Faults.{Rose};
ghost use Rattle.ficus_runs.specs.ModelWorld.{ModelWorld};
ghost use Rattle.ficus_script.specs.Command.{IsCommand};
ghost use Rattle.ficus_loop.specs.Performed.{PutsPerformed, PutsPerformedFront};
ghost use Rattle.ficus_loop.specs.Serving.{serving_limit, ServesWorld, ServesWorldFront};
ghost use Rattle.ficus_loop.specs.Serving.{script_limit};
ghost use Rattle.ficus_world.specs.Disks.{IsBacked};
ghost use Rattle.ficus_world.specs.Follows.{TellsFor};
ghost use Rattle.ficus_world.specs.World.{WorldStandsFor};

use crate::fault::Fault;
use crate::status::Status;
use ficus_disk::{Disk, Pair};
use ficus_keeper::Keep;
use ficus_loop::answer_all;
use ficus_outside::{Link, Sink};
use ficus_script::Command;
use ficus_world::World;
use std::alloc::Global;

/// Answers the commands in order over the disks of the world: each answer's text is put after its command was carried
/// out, and what it did is on the disks, and before the next one. Ends with code 0; 3, for want of memory; or 5, where
/// the sink fails.
pub fn serve<K: Sink, D: Disk, P: Keep + Drop, L: Link + Drop>(
    alloc: Global,
    world: &mut World<P, L>,
    disks: &mut Vec<Pair<D>>,
    commands: &[Command],
    output: &mut K,
) -> Status
    requires commands { All IsCommand commands.now }
    requires count { length commands.now ≤ script_limit }
    requires room { length world.old.whole.events < serving_limit }
    requires backed { IsBacked P.Keep D.Disk world.old disks.old.items }
    ensures codes { (result.code ≡ 0) ⊎ (result.code ≡ 3) ⊎ (result.code ≡ 5) }

    // Whatever the world stood for before, over a link that tells its posts, and for restarts over disks that tell what
    // they hold: what was answered, what of it was put, and for what the world stands now. With code 3 the last command
    // may have been cut short.
    ensures answers { L.tells → All (TellsFor D.tells) commands.now → result.code ≡ 0
        → (volume : Volume) (W : ModelWorld)
        → WorldStandsFor volume W world.old.whole
        → ServesWorld K.tells P.Keep D.Disk volume W world.old.whole commands.now world.new.whole
        (K.written output.old) (K.written output.new) disks.old.items disks.new.items }
    ensures prefix { L.tells → All (TellsFor D.tells) commands.now → (result.code ≡ 3) ⊎ (result.code ≡ 5)
        → (volume : Volume) (W : ModelWorld) → WorldStandsFor volume W world.old.whole
        → ServesWorldFront K.tells (result.code ≡ 3) P.Keep D.Disk volume W world.old.whole commands.now
        world.new.whole (K.written output.old) (K.written output.new) disks.old.items disks.new.items }
    // Whatever it stood for, and over any link: each command comes to what the members hold, up to where it ended.
    ensures moves { result.code ≡ 0 → PutsPerformed K.tells L.tells P.Keep D.Disk world.old.whole commands.now
        world.new.whole (K.written output.old) (K.written output.new) disks.old.items disks.new.items }
    ensures moves_front { (result.code ≡ 3) ⊎ (result.code ≡ 5) → PutsPerformedFront K.tells (result.code ≡ 3) L.tells
        P.Keep D.Disk world.old.whole commands.now world.new.whole (K.written output.old) (K.written output.new)
        disks.old.items disks.new.items }
    ensures backed { IsBacked P.Keep D.Disk world.new disks.new.items }
    ensures members { length world.new.whole.members ≡ length world.old.whole.members }
    ensures pairs { length disks.new.items ≡ length disks.old.items }

    // Code 5 comes only where the sink has failed in this call, and wherever it has.
    ensures write_fault { result.code ≡ 5 → Rose (K.faults output.old) (K.faults output.new) }
    ensures write_fault_comes { K.faults output.old < K.faults output.new → result.code ≡ 5 }

    ensures numbers { (result.line ≡ 0) × (result.replica ≡ 0) }
    ensures counted { K.faults output.old ≤ K.faults output.new }
{
    match answer_all(alloc, world, disks, commands, output) {
        Ok(()) => Status::of(Ok(())),
        Err(fault) => Status::of(Err(Fault::Answering(fault))),
    }
}
