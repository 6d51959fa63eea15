ghost use Rattle.std.specs.Prelude.{[], IfOk, OnErr};
ghost use Rattle.ficus_model.specs.Lawful.{Volume};
ghost use Rattle.ficus_runs.specs.ModelWorld.{ModelWorld};
ghost use Rattle.ficus_runs.specs.Run.{CommandMayWantMemory, Step};
ghost use Rattle.ficus_script.specs.declared.command.Command.TheVariants.{Why as Whys};
ghost use Rattle.ficus_loop.specs.Performing.{AnswersWhy};
ghost use Rattle.ficus_world.specs.World.{IsUpIn, WorldStandsFor};

use ficus_ids::{Memory, Refusal};
use ficus_keeper::Keep;
use ficus_outside::Link;
use ficus_script::Answer;
use ficus_why_runs::why_lines;
use ficus_world::World;
use std::alloc::Global;

/// Answers why, by the stored events alone: nothing happens, and nothing is asked of the outside. Memory is wanted only
/// of a member that is up.
pub(crate) fn answer_why<P: Keep + Drop, L: Link + Drop>(
    alloc: Global,
    world: &World<P, L>,
    by: u8,
) -> Result<Answer, Memory>
    ensures answers { (volume : Volume) (W : ModelWorld) → WorldStandsFor volume W world.now.whole
        → IfOk result (λ answer. Step volume W (Whys by) [] answer W) }
    // Whatever the world stands for.
    ensures explains { IfOk result (AnswersWhy by world.now.whole) }
    ensures up { OnErr result (IsUpIn world.now.whole by) }
    ensures wants { (volume : Volume) (W : ModelWorld) → WorldStandsFor volume W world.now.whole
        → OnErr result (CommandMayWantMemory volume W (Whys by)) }
{
    if !world.members().has(by) {
        return Ok(Answer::Refused(Refusal::Member));
    }
    if world.replica(by).is_none() {
        return Ok(Answer::Refused(Refusal::Down));
    }
    let lines = why_lines(alloc, world.history(), by)?;
    Ok(Answer::Why(lines))
}
