ghost use Rattle.std.specs.Prelude.{◌<◌, length};
ghost use Rattle.ficus_script.specs.Command.{IsCommand};
ghost use Rattle.ficus_script.specs.declared.command.Command.TheVariants.{Sweep as Sweeps};
ghost use Rattle.ficus_loop.specs.Calls.{AnswersCommand, StaysBacked};
ghost use Rattle.ficus_loop.specs.Sweeping.{AnswersSweep};
ghost use Rattle.ficus_loop.specs.SweepFollows.{most_swept, sweeping_limit};
ghost use Rattle.ficus_world.specs.Disks.{IsBacked};

use crate::explaining::answer_why;
use crate::sweep_fault::SweepFault;
use crate::sweep_report::SweepReport;
use crate::sweeps::sweep;
use ficus_disk::{Disk, Pair};
use ficus_ids::Memory;
use ficus_keeper::Keep;
use ficus_outside::Link;
use ficus_script::{Answer, Command, Order};
use ficus_world::World;
use std::alloc::Global;

/// Carries out one command, which is one step of the world, a sweep or why, and answers it.
pub(crate) fn carry_out<D: Disk, P: Keep + Drop, L: Link + Drop>(
    alloc: Global,
    world: &mut World<P, L>,
    disks: &mut Vec<Pair<D>>,
    command: &Command,
) -> Result<Answer, Memory>
    requires command { IsCommand command.now }
    requires room { length world.old.whole.events < sweeping_limit }
    requires backed { IsBacked P.Keep D.Disk world.old disks.old.items }
    ensures answers { AnswersCommand L.tells P.Keep D.Disk command.now result world.old.whole world.new.whole
        disks.old.items disks.new.items }
    ensures disks { StaysBacked P.Keep D.Disk most_swept world.old world.new disks.old.items disks.new.items }
{
    match command {
        Command::Sweep { order } => answer_sweep(alloc, world, disks, *order),
        Command::Why { by } => {
            world.settled(disks);
            answer_why(alloc, world, *by)
        }
        _ => world.step(alloc, disks, command),
    }
}

// Sweeps, and answers the sweep.
fn answer_sweep<D: Disk, P: Keep + Drop, L: Link + Drop>(
    alloc: Global,
    world: &mut World<P, L>,
    disks: &mut Vec<Pair<D>>,
    order: Order,
) -> Result<Answer, Memory>
    requires room { length world.old.whole.events < sweeping_limit }
    requires backed { IsBacked P.Keep D.Disk world.old disks.old.items }
    ensures answers { AnswersCommand L.tells P.Keep D.Disk (Sweeps order) result world.old.whole world.new.whole
        disks.old.items disks.new.items }
    ensures disks { StaysBacked P.Keep D.Disk most_swept world.old world.new disks.old.items disks.new.items }
{
    let swept = sweep(alloc, world, disks, order);
    answered(swept)
}

// What a sweep is answered.
fn answered(swept: Result<SweepReport, SweepFault>) -> Result<Answer, Memory>
    ensures { AnswersSweep swept result }
{
    match swept {
        Ok(report) => Ok(Answer::Swept {
            pulls: report.pulls,
            entries: report.entries,
            files: report.files,
        }),
        Err(SweepFault::Stopped(refusal)) => Ok(Answer::Refused(refusal)),
        Err(SweepFault::Memory) => Err(Memory),
    }
}
