ghost use Rattle.std.specs.Prelude.{◌≡◌, ◌⊎◌, ◌<◌, ◌≤◌, All, ℕ, List, [], length, IfErr, IsErrOf, OnOk};
ghost use Rattle.ficus_faults.specs.Faults.{Rose};
ghost use Rattle.ficus_model.specs.Lawful.{Volume};
ghost use Rattle.ficus_model.specs.declared.event.Event.{Event as EventValue};
ghost use Rattle.ficus_runs.specs.ModelWorld.{ModelWorld};
ghost use Rattle.ficus_runs.specs.Start.{start};
ghost use Rattle.ficus_script.specs.Command.{IsCommand};
ghost use Rattle.ficus_top.specs.Summary.Keeper.{keeper, kept_in};
ghost use Rattle.ficus_top.specs.Ending.{IsAnswering, IsIdle, IsOfRunning, IsUntouched, TakesAsEnded, TellsOfStreams};
ghost use Rattle.ficus_top.specs.Ends.{AllUp, Ends, EndsFront, StandNow};
ghost use Rattle.ficus_top.specs.Killed.{EndsFrontKilled, EndsFrontOn, EndsKilled, EndsOn, KilledAnswers, KilledAnswersFront};
ghost use Rattle.ficus_top.specs.Headline.{Answers, AnswersFront, AreFusesAtRest, CarriesOutNothing, fuses_of};
ghost use Rattle.ficus_top.specs.Making.{FitsSize, volume_of};
ghost use Rattle.ficus_top.specs.Storing.{TellsOfMaking, TellsOfOpening};
ghost use Rattle.ficus_loop.specs.Serving.{script_limit};
ghost use Rattle.ficus_loop.specs.Serving.{serving_limit};
ghost use Rattle.ficus_world.specs.Disks.{IsBacked};
ghost use Rattle.ficus_opening.specs.Rests.{OthersRest, OthersStay};
ghost use Rattle.ficus_world.specs.World.{WorldStandsFor};
ghost use Rattle.ficus_opening.specs.Fuses.{AreUnarmed};
ghost use Rattle.ficus_loop.specs.Crashes.{CrashesKeep};
ghost use Rattle.ficus_opening.specs.Opening.{AreEmpty, AreMadeFirst, AreMadeInPart, AreSynced, IsAtFault, IsUnfailed, SeenSame, StandsOn, Steady};
ghost use Rattle.ficus_opening.specs.declared.fault.WorldFault.{WorldFault as WorldFaultValue};
ghost use Rattle.ficus_words.specs.declared.fault.WordsFault.{WordsFault as WordsFaultValue};

use crate::fault::Fault;
use crate::making::make;
use crate::read::read_commands;
use crate::summary::Keeper;
use ficus_disk::{Disk, Pair};
use ficus_loop::{AnsweringFault, answer_all};
use ficus_opening::WorldFault;
use ficus_outside::{MemLink, Sink, Source};
use ficus_script::Command;
use ficus_words::Size;
use ficus_world::{World, disks_stand, pending_events_may_come};
use std::alloc::Global;

/// Reads the script, opens the volume that the disks hold, and answers the commands.
pub(crate) fn run<S: Source, K: Sink, D: Disk>(
    alloc: Global,
    input: &mut S,
    output: &mut K,
    disks: &mut Vec<Pair<D>>,
) -> Result<(), Fault>
    requires pairs { length disks.old.items ≡ 8 }
    ensures usage { (fault : WordsFaultValue) → IsErrOf result (Fault.Words fault) → ⊥ }
    ensures takes { S.tells → TakesAsEnded (S.left input.old) (S.left input.new) result }
    ensures answers { S.tells → D.tells → OnOk result ((volume : Volume) (H : List EventValue)
        → StandsOn kept_in D.seen volume H disks.old.items
        → Answers K.tells D.Disk (AreFusesAtRest D.Disk volume.members H disks.old.items) volume H
        (S.left input.old) (K.written output.old) (K.written output.new) disks.old.items disks.new.items) }
    ensures prefix { S.tells → D.tells → IfErr result (λ fault. IsAnswering fault
        → (volume : Volume) (H : List EventValue) → StandsOn kept_in D.seen volume H disks.old.items
        → AnswersFront K.tells (fault ≡ Fault.Answering AnsweringFault.Memory) D.Disk
        (AreFusesAtRest D.Disk volume.members H disks.old.items) volume H (S.left input.old) (K.written output.old)
        (K.written output.new) disks.old.items
        disks.new.items) }
    ensures killed { S.tells → D.tells → OnOk result ((volume : Volume) (H : List EventValue)
        → StandsOn kept_in D.seen volume H disks.old.items
        → CrashesKeep kept_in D.may_leave volume H disks.old.items
        → KilledAnswers K.tells D.Disk (AreFusesAtRest D.Disk volume.members H disks.old.items) volume H
        (S.left input.old) (K.written output.old) (K.written output.new) disks.old.items disks.new.items) }
    ensures front_killed { S.tells → D.tells → IfErr result (λ fault. IsAnswering fault
        → (volume : Volume) (H : List EventValue) → StandsOn kept_in D.seen volume H disks.old.items
        → CrashesKeep kept_in D.may_leave volume H disks.old.items
        → KilledAnswersFront K.tells (fault ≡ Fault.Answering AnsweringFault.Memory) D.Disk
        (AreFusesAtRest D.Disk volume.members H disks.old.items) volume H (S.left input.old) (K.written output.old)
        (K.written output.new) disks.old.items disks.new.items) }
    ensures idle { IfErr result (λ fault. IsIdle fault → CarriesOutNothing (D.tells
        → SeenSame D.seen disks.old.items disks.new.items) D.armings output.old output.new disks.old.items
        disks.new.items) }
    ensures untouched { IfErr result (λ fault. IsUntouched fault → disks.new ≡ disks.old) }
    ensures opens { TellsOfOpening D.Disk result disks.old.items disks.new.items }
    ensures never_occupied { (r : ℕ) → IsErrOf result (Fault.Storing (WorldFault.Occupied r)) → ⊥ }
    ensures streams { TellsOfStreams (S.faults input.old) (S.faults input.new) (K.faults output.old)
        (K.faults output.new) result }
{
    let commands = read_commands(alloc, input)?;
    run_on(alloc, disks, &commands, output)
}

/// Reads the script, makes a fresh volume of this size, and answers the commands on it.
pub(crate) fn replay<S: Source, K: Sink, D: Disk>(
    alloc: Global,
    size: Size,
    input: &mut S,
    output: &mut K,
    disks: &mut Vec<Pair<D>>,
) -> Result<(), Fault>
    requires size { FitsSize size }
    requires pairs { length disks.old.items ≡ 8 }
    ensures usage { (fault : WordsFaultValue) → IsErrOf result (Fault.Words fault) → ⊥ }
    ensures takes { S.tells → TakesAsEnded (S.left input.old) (S.left input.new) result }
    ensures answers { S.tells → D.tells → OnOk result (Answers K.tells D.Disk
        (AreFusesAtRest D.Disk size.members [] disks.old.items) (volume_of size) [] (S.left input.old)
        (K.written output.old) (K.written output.new) disks.old.items
        disks.new.items) }
    ensures prefix { S.tells → D.tells → IfErr result (λ fault. IsAnswering fault
        → AnswersFront K.tells (fault ≡ Fault.Answering AnsweringFault.Memory) D.Disk
        (AreFusesAtRest D.Disk size.members [] disks.old.items) (volume_of size) [] (S.left input.old)
        (K.written output.old) (K.written output.new)
        disks.old.items disks.new.items) }
    ensures idle { IfErr result (λ fault. IsIdle fault → CarriesOutNothing (Unit {0}) D.armings output.old output.new
        disks.old.items disks.new.items) }
    ensures untouched { IfErr result (λ fault. IsUntouched fault → disks.new ≡ disks.old) }
    ensures pairs { length disks.new.items ≡ length disks.old.items }
    ensures failed { (r : ℕ) → IsErrOf result (Fault.Storing (WorldFault.Store r))
        → IsAtFault D.faults disks.old.items disks.new.items r }
    ensures unfailing { D.tells_fuse → AreUnarmed D.fuse disks.old.items → (r : ℕ)
        → IsErrOf result (Fault.Storing (WorldFault.Store r)) → ⊥ }
    ensures never_image { D.tells → (r : ℕ) → IsErrOf result (Fault.Storing (WorldFault.Image r)) → ⊥ }
    ensures makes { TellsOfMaking D.Disk size.members result disks.old.items disks.new.items }
    ensures partly { D.tells → AreEmpty D.seen disks.old.items size.members
        → AreSynced D.seen D.may_leave disks.old.items size.members
        → (fault : WorldFaultValue) → IsErrOf result (Fault.Storing fault)
        → AreMadeFirst kept_in D.Disk (volume_of size) size.members disks.old.items disks.new.items
        ⊎ AreMadeInPart kept_in D.Disk (volume_of size) disks.old.items disks.new.items fault }
    ensures member { D.tells → (r : ℕ) → IsErrOf result (Fault.Storing (WorldFault.Store r)) → r ≤ size.members }
    ensures others { D.tells → OthersRest D.Disk size.members disks.old.items disks.new.items }
    ensures spared { (fault : WorldFaultValue) → IsUnfailed fault → IsErrOf result (Fault.Storing fault)
        → Steady D.faults disks.old.items disks.new.items }
    ensures streams { TellsOfStreams (S.faults input.old) (S.faults input.new) (K.faults output.old)
        (K.faults output.new) result }
{
    let commands = read_commands(alloc, input)?;
    make(alloc, size, disks)?;
    run_on(alloc, disks, &commands, output)
}

// Opens the volume that the disks hold, and answers the commands.
fn run_on<K: Sink, D: Disk>(
    alloc: Global,
    disks: &mut Vec<Pair<D>>,
    commands: &[Command],
    output: &mut K,
) -> Result<(), Fault>
    requires pairs { length disks.old.items ≡ 8 }
    requires commands { All IsCommand commands.now }
    requires count { length commands.now ≤ script_limit }
    // Whatever lawful history the disks stood for.
    ensures answers { D.tells → OnOk result ((volume : Volume) (H : List EventValue)
        → StandsOn kept_in D.seen volume H disks.old.items
        → Ends K.tells D.Disk (AreFusesAtRest D.Disk volume.members H disks.old.items) volume
        (start H volume.members 0 (fuses_of D.armings volume.members disks.old.items)) commands.now
        (K.written output.old) (K.written output.new) disks.old.items disks.new.items) }
    ensures prefix { D.tells → IfErr result (λ fault. IsAnswering fault → (volume : Volume) (H : List EventValue)
        → StandsOn kept_in D.seen volume H disks.old.items
        → EndsFront K.tells (fault ≡ Fault.Answering AnsweringFault.Memory) D.Disk
        (AreFusesAtRest D.Disk volume.members H disks.old.items) volume
        (start H volume.members 0 (fuses_of D.armings volume.members disks.old.items)) commands.now
        (K.written output.old) (K.written output.new) disks.old.items disks.new.items) }
    // What a kill at any moment of it leaves, where whatever a crash left before keeps that history too.
    ensures killed { D.tells → OnOk result ((volume : Volume) (H : List EventValue)
        → StandsOn kept_in D.seen volume H disks.old.items
        → CrashesKeep kept_in D.may_leave volume H disks.old.items
        → EndsKilled K.tells D.Disk (AreFusesAtRest D.Disk volume.members H disks.old.items) volume
        (start H volume.members 0 (fuses_of D.armings volume.members disks.old.items)) commands.now
        (K.written output.old) (K.written output.new) disks.old.items disks.new.items) }
    ensures front_killed { D.tells → IfErr result (λ fault. IsAnswering fault → (volume : Volume) (H : List EventValue)
        → StandsOn kept_in D.seen volume H disks.old.items
        → CrashesKeep kept_in D.may_leave volume H disks.old.items
        → EndsFrontKilled K.tells (fault ≡ Fault.Answering AnsweringFault.Memory) D.Disk
        (AreFusesAtRest D.Disk volume.members H disks.old.items) volume
        (start H volume.members 0 (fuses_of D.armings volume.members disks.old.items)) commands.now
        (K.written output.old) (K.written output.new) disks.old.items disks.new.items) }
    ensures idle { IfErr result (λ fault. IsIdle fault → output.new ≡ output.old) }
    ensures unarmed { IfErr result (λ fault. IsIdle fault → Steady D.armings disks.old.items disks.new.items) }
    ensures same { D.tells → IfErr result (λ fault. IsIdle fault → SeenSame D.seen disks.old.items disks.new.items) }
    ensures opens { TellsOfOpening D.Disk result disks.old.items disks.new.items }
    ensures unfailing { D.tells_fuse → AreUnarmed D.fuse disks.old.items → (r : ℕ)
        → IsErrOf result (Fault.Storing (WorldFault.Store r)) → ⊥ }
    ensures kinds { IfErr result IsOfRunning }
    ensures write_fault { IsErrOf result (Fault.Answering AnsweringFault.Sink)
        → Rose (K.faults output.old) (K.faults output.new) }
    ensures write_fault_comes { K.faults output.old < K.faults output.new
        → IsErrOf result (Fault.Answering AnsweringFault.Sink) }
    ensures counted { K.faults output.old ≤ K.faults output.new }
{
    let mut world = World::<Keeper, MemLink>::open(alloc, disks, MemLink::new(alloc))?;
    answer_on(alloc, &mut world, disks, commands, output)?;
    Ok(())
}

// Answers the commands over a world that was just opened, and over its disks.
fn answer_on<K: Sink, D: Disk>(
    alloc: Global,
    world: &mut World<Keeper, MemLink>,
    disks: &mut Vec<Pair<D>>,
    commands: &[Command],
    output: &mut K,
) -> Result<(), AnsweringFault>
    requires commands { All IsCommand commands.now }
    requires count { length commands.now ≤ script_limit }
    requires room { length world.old.whole.events < serving_limit }
    requires backed { IsBacked keeper D.Disk world.old disks.old.items }
    requires unfailed { world.old.whole.post.faults ≡ 0 }
    ensures answers { D.tells → OnOk result ((volume : Volume) (W : ModelWorld)
        → WorldStandsFor volume W world.old.whole
        → AllUp W → Ends K.tells D.Disk (StandNow keeper D.Disk world.old.whole disks.old.items) volume W
        commands.now
        (K.written output.old) (K.written output.new) disks.old.items disks.new.items) }
    ensures prefix { D.tells → IfErr result (λ fault. (volume : Volume) (W : ModelWorld)
        → WorldStandsFor volume W world.old.whole
        → AllUp W → EndsFront K.tells (fault ≡ AnsweringFault.Memory) D.Disk
        (StandNow keeper D.Disk world.old.whole disks.old.items) volume W commands.now
        (K.written output.old) (K.written output.new) disks.old.items disks.new.items) }
    ensures runs { D.tells → OnOk result ((volume : Volume) (W : ModelWorld)
        → WorldStandsFor volume W world.old.whole
        → AllUp W → EndsOn K.tells D.Disk (StandNow keeper D.Disk world.old.whole disks.old.items) volume
        W commands.now (K.written output.old) (K.written output.new) disks.old.items disks.new.items) }
    ensures front_runs { D.tells → IfErr result (λ fault. (volume : Volume) (W : ModelWorld)
        → WorldStandsFor volume W world.old.whole
        → AllUp W → EndsFrontOn K.tells (fault ≡ AnsweringFault.Memory) D.Disk
        (StandNow keeper D.Disk world.old.whole disks.old.items) volume W commands.now
        (K.written output.old) (K.written output.new) disks.old.items disks.new.items) }
    ensures others { OthersStay (length world.old.whole.members) disks.old.items disks.new.items }
    ensures pairs { length disks.new.items ≡ length disks.old.items }
    ensures failed { IsErrOf result AnsweringFault.Sink → Rose (K.faults output.old) (K.faults output.new) }
    ensures told { K.faults output.old < K.faults output.new → IsErrOf result AnsweringFault.Sink }
    ensures counted { K.faults output.old ≤ K.faults output.new }
{
    let answered = answer_all(alloc, world, disks, commands, output);
    let _ = world.link();
    disks_stand(world, disks);
    pending_events_may_come();
    answered
}
