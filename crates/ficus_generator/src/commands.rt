ghost use Rattle.std.specs.Prelude.{◌≡◌, ◌<◌, ◌≤◌, ◌+◌, ◌^◌, ◌++◌, ◌∷◌, [], All, IfOk, OnOk, length};
ghost use Rattle.ficus_generator.specs.Commands.{dir_commands, first_pull_commands, step_command, step_commands};
ghost use Rattle.ficus_generator.specs.Draws.{FitsSteps, state_after};
ghost use Rattle.ficus_generator.specs.Lines.{StopsNothing};
ghost use Rattle.ficus_generator.specs.Script.{script_lines, text_of};
ghost use Rattle.ficus_generator.specs.Step.{step_from};
ghost use Rattle.ficus_ids.specs.Members.{IsCount};
ghost use Rattle.ficus_script.specs.Script.{IsScript};

use crate::draws::Draws;
use crate::laws::lines_are_commands;
use crate::step::{Step, mkdir};
use ficus_ids::{Members, Memory};
use ficus_script::Command;
use std::alloc::Global;

/// The commands of the script of the seed ([`generate`](crate::generate)), in order. None of them stops disks.
pub fn generated_commands(
    alloc: Global,
    members: Members,
    seed: u32,
    steps: u32,
) -> Result<Vec<Command>, Memory>
    requires members { IsCount members }
    requires seed { seed < 2 ^ 31 }
    requires steps { steps ≤ 5000 }
    ensures script { IfOk result
        (λ commands. IsScript (text_of (script_lines seed steps members)) commands.items) }
    ensures count { IfOk result (λ commands. length commands.items + 1 ≡ 4 + members + steps) }
    ensures stopless { IfOk result (λ commands. All StopsNothing commands.items) }
{
    lines_are_commands();
    let mut commands = Vec::new(alloc);
    push_dirs(alloc, &mut commands)?;
    push_first_pulls(&mut commands, members)?;
    push_steps(alloc, &mut commands, seed, steps, members)?;
    Ok(commands)
}

// Adds the commands by which the first member makes the directories.
fn push_dirs(alloc: Global, commands: &mut Vec<Command>) -> Result<(), Memory>
    ensures { OnOk result (commands.new.items ≡ commands.old.items ++ dir_commands) }
{
    for dir in 0..4u8 {
        commands.push(mkdir(alloc, 1, dir)?)?;
    }
    Ok(())
}

// Adds the commands by which each member but the first hears of it.
fn push_first_pulls(commands: &mut Vec<Command>, members: Members) -> Result<(), Memory>
    ensures { OnOk result (commands.new.items ≡ commands.old.items ++ first_pull_commands members) }
{
    for member in 2..=members.count() {
        commands.push(Command::Pull { by: member, to: 1 })?;
    }
    Ok(())
}

// Adds the commands of the steps.
fn push_steps(
    alloc: Global,
    commands: &mut Vec<Command>,
    seed: u32,
    steps: u32,
    members: Members,
) -> Result<(), Memory>
    requires { FitsSteps seed steps }
    ensures { OnOk result (commands.new.items ≡ commands.old.items ++ step_commands seed steps members) }
{
    let mut draws = Draws::new(seed);
    for number in 1..=steps {
        push_step(alloc, commands, &mut draws, members, number)?;
    }
    Ok(())
}

// Adds the command of the step of this number, by three draws.
fn push_step(
    alloc: Global,
    commands: &mut Vec<Command>,
    draws: &mut Draws,
    members: Members,
    number: u32,
) -> Result<(), Memory>
    ensures state { draws.new ≡ state_after draws.old 3 }
    ensures command { OnOk result (commands.new.items
        ≡ commands.old.items ++ step_command members (step_from members draws.old number) ∷ []) }
{
    let step = Step::draw(draws, members, number);
    commands.push(step.command(alloc, members)?)?;
    Ok(())
}
