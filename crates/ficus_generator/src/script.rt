ghost use Rattle.std.specs.Prelude.{◌≡◌, ◌<◌, ◌≤◌, ◌^◌, [], ◌∷◌, ◌++◌, IfOk, OnOk};
ghost use Rattle.ficus_generator.specs.Draws.{FitsSteps, state_after};
ghost use Rattle.ficus_generator.specs.Script.{dir_lines, first_pull_lines, mkdir_line, pull_line};
ghost use Rattle.ficus_generator.specs.Script.{script_lines, step_line, step_lines, text_of};
ghost use Rattle.ficus_generator.specs.Step.{step_from};

use crate::draws::Draws;
use crate::step::Step;
use ficus_ids::{Members, Memory};
use std::alloc::Global;

/// The script of the seed, over so many steps, for a volume of so many members. It is a function of these three: the
/// first member makes four directories, of which all others hear, and each step draws who does what at which place.
pub fn generate(alloc: Global, seed: u32, steps: u32, members: Members) -> Result<Vec<u8>, Memory>
    requires seed { seed < 2 ^ 31 }
    requires steps { steps ≤ 5000 }
    ensures { IfOk result (λ script. script.items ≡ text_of (script_lines seed steps members)) }
{
    let mut script = Vec::new(alloc);
    append_dirs(alloc, &mut script)?;
    append_first_pulls(alloc, &mut script, members)?;
    append_steps(alloc, &mut script, seed, steps, members)?;
    Ok(script)
}

// Adds the lines by which the first member makes the directories.
fn append_dirs(alloc: Global, script: &mut Vec<u8>) -> Result<(), Memory>
    ensures { OnOk result (script.new.items ≡ script.old.items ++ text_of dir_lines) }
{
    for dir in 0..4u8 {
        append_mkdir(alloc, script, 1, dir)?;
    }
    Ok(())
}

fn append_mkdir(alloc: Global, script: &mut Vec<u8>, by: u8, dir: u8) -> Result<(), Memory>
    ensures { OnOk result (script.new.items ≡ script.old.items ++ (mkdir_line by dir ++ 10 ∷ [])) }
{
    script.extend_from_slice(format!(in alloc; "{by} mkdir /d{dir}\n")?.as_bytes())?;
    Ok(())
}

// Adds the lines by which each member but the first hears of it.
fn append_first_pulls(alloc: Global, script: &mut Vec<u8>, members: Members) -> Result<(), Memory>
    ensures { OnOk result (script.new.items ≡ script.old.items ++ text_of (first_pull_lines members)) }
{
    for member in 2..=members.count() {
        append_pull(alloc, script, member, 1)?;
    }
    Ok(())
}

fn append_pull(alloc: Global, script: &mut Vec<u8>, by: u8, peer: u8) -> Result<(), Memory>
    ensures { OnOk result (script.new.items ≡ script.old.items ++ (pull_line by peer ++ 10 ∷ [])) }
{
    script.extend_from_slice(format!(in alloc; "pull {by} {peer}\n")?.as_bytes())?;
    Ok(())
}

// Adds the lines of the steps.
fn append_steps(
    alloc: Global,
    script: &mut Vec<u8>,
    seed: u32,
    steps: u32,
    members: Members,
) -> Result<(), Memory>
    requires { FitsSteps seed steps }
    ensures { OnOk result (script.new.items ≡ script.old.items ++ text_of (step_lines seed steps members)) }
{
    let mut draws = Draws::new(seed);
    for number in 1..=steps {
        append_step(alloc, script, &mut draws, members, number)?;
    }
    Ok(())
}

// Adds the line of the step of this number, by three draws.
fn append_step(
    alloc: Global,
    script: &mut Vec<u8>,
    draws: &mut Draws,
    members: Members,
    number: u32,
) -> Result<(), Memory>
    ensures state { draws.new ≡ state_after draws.old 3 }
    ensures line { OnOk result (script.new.items
        ≡ script.old.items ++ (step_line members (step_from members draws.old number) ++ 10 ∷ [])) }
{
    let step = Step::draw(draws, members, number);
    script.extend_from_slice(step.line(alloc, members)?.as_bytes())?;
    Ok(())
}
