ghost use Rattle.std.specs.Prelude.{◌≡◌, ◌+◌, ◌<◌, ◌≤◌, ◌∷◌, [], length, All, IfOk, OnOk};
ghost use Rattle.ficus_model.specs.Lawful.{Volume};
ghost use Rattle.ficus_runs.specs.ModelWorld.{ModelWorld};
ghost use Rattle.ficus_script.specs.Command.{IsCommand};
ghost use Rattle.ficus_loop.specs.Calls.{StaysBacked};
ghost use Rattle.ficus_loop.specs.Serving.{script_limit, serving_limit};
ghost use Rattle.ficus_loop.specs.Tally.{Tallies, with_answer};
ghost use Rattle.ficus_loop.specs.SweepFollows.{most_swept, sweeping_limit};
ghost use Rattle.ficus_world.specs.Disks.{IsBacked};
ghost use Rattle.ficus_world.specs.Follows.{TellsFor};
ghost use Rattle.ficus_world.specs.World.{WorldStandsFor};

use crate::command::carry_out;
use ficus_disk::{Disk, Pair};
use ficus_ids::Memory;
use ficus_keeper::Keep;
use ficus_outside::Link;
use ficus_script::{Answer, Command};
use ficus_world::World;
use std::alloc::Global;

/// How many answers were no refusals, and how many were.
#[derive(Clone, Copy)]
pub struct Tally {
    pub ok: u32,
    pub no: u32,
}

impl Tally {
    // One answer more.
    fn count(&mut self, answer: &Answer)
        requires few { self.old.ok + self.old.no < script_limit }
        ensures { self.new ≡ with_answer self.old answer.now }
    {
        match answer {
            Answer::Refused(_) => self.no += 1,
            _ => self.ok += 1,
        }
    }
}

/// Carries out each command and counts its answer.
pub fn count_all<D: Disk, P: Keep + Drop, L: Link + Drop>(
    alloc: Global,
    world: &mut World<P, L>,
    disks: &mut Vec<Pair<D>>,
    commands: &[Command],
) -> Result<Tally, Memory>
    requires commands { All IsCommand commands.now }
    requires count { length commands.now ≤ script_limit }
    requires room { length world.old.whole.events < serving_limit }
    requires backed { IsBacked P.Keep D.Disk world.old disks.old.items }
    ensures answers { L.tells → All (TellsFor D.tells) commands.now → IfOk result (λ tally. (volume : Volume)
        (W : ModelWorld) → WorldStandsFor volume W world.old.whole
        → Tallies P.Keep D.Disk volume W world.old.whole commands.now world.new.whole (record { ok = 0; no = 0 }) tally
        disks.old.items disks.new.items) }
{
    let mut tally = Tally { ok: 0, no: 0 };
    for command in commands {
        count_one(alloc, world, disks, command, &mut tally)?;
    }
    Ok(tally)
}

// Carries out one command and counts its answer.
fn count_one<D: Disk, P: Keep + Drop, L: Link + Drop>(
    alloc: Global,
    world: &mut World<P, L>,
    disks: &mut Vec<Pair<D>>,
    command: &Command,
    tally: &mut Tally,
) -> Result<(), Memory>
    requires command { IsCommand command.now }
    requires few { tally.old.ok + tally.old.no < script_limit }
    requires room { length world.old.whole.events < sweeping_limit }
    requires backed { IsBacked P.Keep D.Disk world.old disks.old.items }
    ensures answer { L.tells → TellsFor D.tells command.now → OnOk result ((volume : Volume) (W : ModelWorld)
        → WorldStandsFor volume W world.old.whole
        → Tallies P.Keep D.Disk volume W world.old.whole (command.now ∷ []) world.new.whole tally.old tally.new
        disks.old.items disks.new.items) }
    ensures more { OnOk result (tally.new.ok + tally.new.no ≡ tally.old.ok + tally.old.no + 1) }
    ensures disks { StaysBacked P.Keep D.Disk most_swept world.old world.new disks.old.items disks.new.items }
{
    let answer = carry_out(alloc, world, disks, command)?;
    tally.count(&answer);
    Ok(())
}
