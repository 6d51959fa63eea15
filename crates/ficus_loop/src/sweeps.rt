ghost use Rattle.std.specs.Prelude.{◌≡◌, ◌+◌, ◌<◌, ◌≤◌, ℕ, List, length, map, All, IfOk};
ghost use Rattle.ficus_model.specs.Lawful.{Volume};
ghost use Rattle.ficus_runs.specs.ModelWorld.{ModelWorld};
ghost use Rattle.ficus_runs.specs.Sweep.{SweepStep, command_of, sweep_steps};
ghost use Rattle.ficus_script.specs.Command.{IsCommand};
ghost use Rattle.ficus_loop.specs.Calls.{StaysBacked};
ghost use Rattle.ficus_loop.specs.Performing.{SweepStepsTo, SweepsTo, sweep_commands};
ghost use Rattle.ficus_loop.specs.SweepFollows.{CountsFew, FollowsStep, FollowsSweep, GivesUpFew, IsSweepCommand, LeavesSwept, ReportsSo, most_steps, most_swept, swept_of, sweeping_limit};
ghost use Rattle.ficus_world.specs.Disks.{IsBacked};
ghost use Rattle.ficus_world.specs.Kills.{IsSweepLink, Passes};
ghost use Rattle.ficus_world.specs.World.{WorldStandsFor, event_limit, most_unforeseen};

use crate::sweep_fault::SweepFault;
use crate::sweep_report::SweepReport;
use crate::sweep_steps::steps_of;
use ficus_disk::{Disk, Pair};
use ficus_keeper::Keep;
use ficus_outside::Link;
use ficus_script::{Answer, Command, Order};
use ficus_world::World;
use std::alloc::Global;

/// All pulls of the order, and then each member collects, up to the first refusal. `Stopped` comes exactly where one of
/// them is refused, and says how; `Memory` where memory was. After both the steps that were done stand.
pub fn sweep<D: Disk, K: Keep + Drop, L: Link + Drop>(
    alloc: Global,
    world: &mut World<K, L>,
    disks: &mut Vec<Pair<D>>,
    order: Order,
) -> Result<SweepReport, SweepFault>
    requires room { length world.old.whole.events < sweeping_limit }
    requires backed { IsBacked K.Keep D.Disk world.old disks.old.items }
    // Whatever the world stood for before, over a link that tells its posts: the model sweeps so, and the world stands
    // for what that leads to.
    ensures follows { L.tells → (volume : Volume) (W : ModelWorld) → WorldStandsFor volume W world.old.whole
        → FollowsSweep K.Keep D.Disk volume W world.old.whole (sweep_steps order volume.members) result world.new.whole
        disks.old.items disks.new.items }
    // Whatever it stood for, and over any link: each pull and each collection comes to what the members hold, `Stopped`
    // is the answer of one, and the counts are those that they were answered with.
    ensures moves { SweepsTo L.tells K.Keep D.Disk world.old.whole
        (sweep_commands order (length world.old.whole.members)) result world.new.whole disks.old.items disks.new.items }
    // Where nothing was refused, all members know the same updates, no removed entry is held anywhere, and every object
    // that is held has a live name or is an orphan.
    ensures swept { L.tells → (volume : Volume) (W : ModelWorld) → WorldStandsFor volume W world.old.whole
        → IfOk result (λ report. LeavesSwept volume world.new.whole) }
    // At each moment of it the disks are as before, or one member saves: link by link, a link for each message.
    ensures passes { Passes L.tells K.Keep D.Disk IsSweepLink world.old.whole world.new.whole disks.old.items
        disks.new.items }
    ensures disks { StaysBacked K.Keep D.Disk most_swept world.old world.new disks.old.items disks.new.items }
{
    world.settled(disks);
    let steps = steps_of(alloc, order, world.members().count())?;
    take_steps(alloc, world, disks, &steps)
}

// The steps, up to the first refusal.
fn take_steps<D: Disk, K: Keep + Drop, L: Link + Drop>(
    alloc: Global,
    world: &mut World<K, L>,
    disks: &mut Vec<Pair<D>>,
    steps: &[Command],
) -> Result<SweepReport, SweepFault>
    requires commands { All IsCommand steps.now }
    requires each { All IsSweepCommand steps.now }
    requires count { length steps.now ≤ most_steps }
    requires room { length world.old.whole.events < sweeping_limit }
    requires backed { IsBacked K.Keep D.Disk world.old disks.old.items }
    ensures follows { L.tells → (some : List SweepStep) → steps.now ≡ map command_of some → (volume : Volume)
        (W : ModelWorld) → WorldStandsFor volume W world.old.whole
        → FollowsSweep K.Keep D.Disk volume W world.old.whole some result world.new.whole disks.old.items
        disks.new.items }
    ensures moves { SweepsTo L.tells K.Keep D.Disk world.old.whole steps.now result world.new.whole disks.old.items
        disks.new.items }
    ensures passes { Passes L.tells K.Keep D.Disk IsSweepLink world.old.whole world.new.whole disks.old.items
        disks.new.items }
    ensures disks { StaysBacked K.Keep D.Disk most_swept world.old world.new disks.old.items disks.new.items }
{
    world.settled(disks);
    let mut report = SweepReport {
        pulls: 0,
        entries: 0,
        files: 0,
    };
    for step in steps {
        report = take_step(alloc, world, disks, step, report)?;
    }
    Ok(report)
}

// One step.
fn take_step<D: Disk, K: Keep + Drop, L: Link + Drop>(
    alloc: Global,
    world: &mut World<K, L>,
    disks: &mut Vec<Pair<D>>,
    step: &Command,
    report: SweepReport,
) -> Result<SweepReport, SweepFault>
    requires command { IsCommand step.now }
    requires step { IsSweepCommand step.now }
    requires few { CountsFew most_steps report }
    requires room { length world.old.whole.events < event_limit }
    requires backed { IsBacked K.Keep D.Disk world.old disks.old.items }
    ensures follows { L.tells → (sweep_step : SweepStep) → step.now ≡ command_of sweep_step → (volume : Volume)
        (W : ModelWorld) → WorldStandsFor volume W world.old.whole
        → FollowsStep K.Keep D.Disk volume W world.old.whole sweep_step (swept_of report) result world.new.whole
        disks.old.items disks.new.items }
    ensures moves { SweepStepsTo L.tells K.Keep D.Disk world.old.whole step.now (swept_of report) result world.new.whole
        disks.old.items disks.new.items }
    ensures few { (count : ℕ) → CountsFew count report → IfOk result (CountsFew (count + 1)) }
    ensures passes { Passes L.tells K.Keep D.Disk IsSweepLink world.old.whole world.new.whole disks.old.items
        disks.new.items }
    ensures disks { StaysBacked K.Keep D.Disk most_unforeseen world.old world.new disks.old.items disks.new.items }
{
    world.settled(disks);
    let answer = world.step(alloc, disks, step)?;
    report_of(report, &answer)
}

// The report with the answer to one step more, or the refusal.
fn report_of(report: SweepReport, answer: &Answer) -> Result<SweepReport, SweepFault>
    requires few { CountsFew most_steps report }
    requires gives { GivesUpFew answer.now }
    ensures reports { ReportsSo report answer.now result }
    ensures few { (count : ℕ) → CountsFew count report → IfOk result (CountsFew (count + 1)) }
{
    match answer {
        Answer::Done => Ok(SweepReport {
            pulls: report.pulls + 1,
            entries: report.entries,
            files: report.files,
        }),
        Answer::Collected { entries, files } => Ok(SweepReport {
            pulls: report.pulls,
            entries: report.entries + *entries,
            files: report.files + *files,
        }),
        Answer::Refused(refusal) => Err(SweepFault::Stopped(*refusal)),
        Answer::Made(_)
        | Answer::Mail(_)
        | Answer::Mails(..)
        | Answer::Part { .. }
        | Answer::Told(_)
        | Answer::Alike(_)
        | Answer::Swept { .. }
        | Answer::Why(_) => Ok(report),
    }
}
