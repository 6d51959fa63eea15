ghost use Rattle.std.specs.Prelude.{◌≡◌, ◌+◌, ◌<◌, ◌≤◌, ◌∷◌, [], ◌++◌, length, All, OnOk, OnErr, IfErr, IsErrOf};
ghost use Rattle.ficus_model.specs.Lawful.{Volume};
ghost use Rattle.ficus_faults.specs.Faults.{Rose};
ghost use Rattle.ficus_runs.specs.ModelWorld.{ModelWorld};
ghost use Rattle.ficus_script.specs.Answer.{answer_text_of};
ghost use Rattle.ficus_script.specs.Command.{IsCommand};
ghost use Rattle.ficus_loop.specs.Calls.{StaysBacked};
ghost use Rattle.ficus_loop.specs.Performed.{PutsPerformed, PutsPerformedFront};
ghost use Rattle.ficus_loop.specs.Puts.{PutsFront};
ghost use Rattle.ficus_loop.specs.Serving.{serving_limit, ServesWorld, ServesWorldFront};
ghost use Rattle.ficus_loop.specs.Serving.{script_limit};
ghost use Rattle.ficus_loop.specs.SweepFollows.{most_swept, sweeping_limit};
ghost use Rattle.ficus_world.specs.Disks.{IsBacked};
ghost use Rattle.ficus_world.specs.Follows.{TellsFor};
ghost use Rattle.ficus_opening.specs.Rests.{OthersStay};
ghost use Rattle.ficus_world.specs.World.{WorldStandsFor};

use crate::command::carry_out;
use crate::fault::AnsweringFault;
use crate::put::put_all;
use ficus_disk::{Disk, Pair};
use ficus_keeper::Keep;
use ficus_outside::{Link, Sink};
use ficus_script::{Answer, Command, answer_text};
use ficus_world::World;
use std::alloc::Global;

/// Carries out each command and puts its answer.
pub fn answer_all<K: Sink, D: Disk, P: Keep + Drop, L: Link + Drop>(
    alloc: Global,
    world: &mut World<P, L>,
    disks: &mut Vec<Pair<D>>,
    commands: &[Command],
    output: &mut K,
) -> Result<(), AnsweringFault>
    requires commands { All IsCommand commands.now }
    requires count { length commands.now ≤ script_limit }
    requires room { length world.old.whole.events < serving_limit }
    requires backed { IsBacked P.Keep D.Disk world.old disks.old.items }
    ensures answers { L.tells → All (TellsFor D.tells) commands.now → OnOk result ((volume : Volume) (W : ModelWorld)
        → WorldStandsFor volume W world.old.whole
        → ServesWorld K.tells P.Keep D.Disk volume W world.old.whole commands.now world.new.whole
        (K.written output.old) (K.written output.new) disks.old.items disks.new.items) }
    ensures prefix { L.tells → All (TellsFor D.tells) commands.now → IfErr result (λ fault. (volume : Volume)
        (W : ModelWorld) → WorldStandsFor volume W world.old.whole
        → ServesWorldFront K.tells (fault ≡ AnsweringFault.Memory) P.Keep D.Disk volume W world.old.whole commands.now
        world.new.whole (K.written output.old) (K.written output.new)
        disks.old.items disks.new.items) }
    // Whatever the world stood for, and over any link: what each command comes to by what the members hold.
    ensures moves { OnOk result (PutsPerformed K.tells L.tells P.Keep D.Disk world.old.whole commands.now
        world.new.whole (K.written output.old) (K.written output.new) disks.old.items disks.new.items) }
    ensures moves_front { IfErr result (λ fault. PutsPerformedFront K.tells (fault ≡ AnsweringFault.Memory) L.tells
        P.Keep D.Disk world.old.whole commands.now world.new.whole (K.written output.old) (K.written output.new)
        disks.old.items disks.new.items) }
    ensures backed { IsBacked P.Keep D.Disk world.new disks.new.items }
    ensures members { length world.new.whole.members ≡ length world.old.whole.members }
    ensures others { OthersStay (length world.old.whole.members) disks.old.items disks.new.items }
    ensures pairs { length disks.new.items ≡ length disks.old.items }
    ensures failed { IsErrOf result AnsweringFault.Sink → Rose (K.faults output.old) (K.faults output.new) }
    ensures told { K.faults output.old < K.faults output.new → IsErrOf result AnsweringFault.Sink }
    ensures counted { K.faults output.old ≤ K.faults output.new }
{
    for command in commands {
        answer_one(alloc, world, disks, command, output)?;
    }
    Ok(())
}

// Carries out one command and puts its answer.
fn answer_one<K: Sink, D: Disk, P: Keep + Drop, L: Link + Drop>(
    alloc: Global,
    world: &mut World<P, L>,
    disks: &mut Vec<Pair<D>>,
    command: &Command,
    output: &mut K,
) -> Result<(), AnsweringFault>
    requires command { IsCommand command.now }
    requires room { length world.old.whole.events < sweeping_limit }
    requires backed { IsBacked P.Keep D.Disk world.old disks.old.items }
    ensures answer { L.tells → TellsFor D.tells command.now → OnOk result ((volume : Volume) (W : ModelWorld)
        → WorldStandsFor volume W world.old.whole
        → ServesWorld K.tells P.Keep D.Disk volume W world.old.whole (command.now ∷ []) world.new.whole
        (K.written output.old) (K.written output.new) disks.old.items disks.new.items) }
    ensures front { L.tells → TellsFor D.tells command.now → IfErr result (λ fault. (volume : Volume) (W : ModelWorld)
        → WorldStandsFor volume W world.old.whole
        → ServesWorldFront K.tells (fault ≡ AnsweringFault.Memory) P.Keep D.Disk volume W world.old.whole
        (command.now ∷ []) world.new.whole (K.written output.old) (K.written output.new)
        disks.old.items disks.new.items) }
    ensures moves { OnOk result (PutsPerformed K.tells L.tells P.Keep D.Disk world.old.whole (command.now ∷ [])
        world.new.whole (K.written output.old) (K.written output.new) disks.old.items disks.new.items) }
    ensures moves_front { IfErr result (λ fault. PutsPerformedFront K.tells (fault ≡ AnsweringFault.Memory) L.tells
        P.Keep D.Disk world.old.whole (command.now ∷ []) world.new.whole (K.written output.old) (K.written output.new)
        disks.old.items disks.new.items) }
    ensures disks { StaysBacked P.Keep D.Disk most_swept world.old world.new disks.old.items disks.new.items }
    ensures failed { IsErrOf result AnsweringFault.Sink → Rose (K.faults output.old) (K.faults output.new) }
    ensures told { K.faults output.old < K.faults output.new → IsErrOf result AnsweringFault.Sink }
    ensures counted { K.faults output.old ≤ K.faults output.new }
{
    let answer = carry_out(alloc, world, disks, command)?;
    put_answer(alloc, &answer, output)
}

/// Puts the text of the answer. `Sink` comes exactly where the sink has failed, and `Memory` only where memory was
/// refused; what was put by then is a front of the text.
pub fn put_answer<K: Sink>(
    alloc: Global,
    answer: &Answer,
    output: &mut K,
) -> Result<(), AnsweringFault>
    ensures put { OnOk result (K.tells → K.written output.new ≡ K.written output.old ++ answer_text_of answer.now) }
    ensures front { OnErr result (K.tells
        → PutsFront (K.written output.old) (answer_text_of answer.now) (K.written output.new)) }
    ensures failed { IsErrOf result AnsweringFault.Sink → Rose (K.faults output.old) (K.faults output.new) }
    ensures told { K.faults output.old < K.faults output.new → IsErrOf result AnsweringFault.Sink }
    ensures counted { K.faults output.old ≤ K.faults output.new }
{
    let text = answer_text(alloc, answer)?;
    put_all(output, &text)?;
    Ok(())
}
