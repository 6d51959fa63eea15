ghost use Rattle.std.specs.Prelude.{◌≡◌, ◌<◌, ◌+◌, ◌%◌, [], ◌∷◌, ◌++◌, IfOk, string_bytes};
ghost use Rattle.ficus_ids.specs.Members.{IsMember};
ghost use Rattle.ficus_generator.specs.Commands.{mkdir_command, step_command};
ghost use Rattle.ficus_generator.specs.Draws.{state_after};
ghost use Rattle.ficus_generator.specs.Script.{peer_of, step_line};
ghost use Rattle.ficus_generator.specs.Step.{action_of, step_from};
ghost use Rattle.ficus_script.specs.declared.command.Command.TheVariants.{Change as Asked};

use crate::draws::Draws;
use crate::paths::{dir_path, file_path, text_of};
use ficus_commands::Change;
use ficus_ids::{Kind, Members, Memory};
use ficus_script::Command;
use std::alloc::Global;

/// What a step does, by the verb of its line.
#[derive(Clone, Copy)]
pub(crate) enum Action {
    MkDir,
    Create,
    Write,
    Rm,
    Mv,
    Resolve,
    Collect,
    Pull,
}

/// A step of a script: its number, counted from 1, the replica that acts, and at which of eight places.
#[derive(Clone, Copy)]
pub(crate) struct Step {
    pub(crate) number: u32,
    pub(crate) by: u8,
    pub(crate) action: Action,
    pub(crate) place: u8,
}

impl Step {
    /// The step of this number, by three draws.
    pub(crate) fn draw(draws: &mut Draws, members: Members, number: u32) -> Step
        ensures step { result ≡ step_from members draws.old number }
        ensures state { draws.new ≡ state_after draws.old 3 }
        ensures member { IsMember members result.by }
        ensures place { result.place < 8 }
    {
        let by = 1 + draws.draw(members.count());
        let action = action_of(draws.draw(10));
        let place = draws.draw(8);
        Step {
            number,
            by,
            action,
            place,
        }
    }

    // The number of the directory that has the place.
    fn dir(self) -> u8
        ensures { result ≡ self.place % 4 }
    {
        self.place % 4
    }

    // That of the next one, to which a move goes.
    fn next_dir(self) -> u8
        requires { self.place < 8 }
        ensures { result ≡ (self.place + 1) % 4 }
    {
        (self.place + 1) % 4
    }

    /// The line of the step, ended by byte 10.
    pub(crate) fn line(self, alloc: Global, members: Members) -> Result<String, Memory>
        requires member { IsMember members self.by }
        requires place { self.place < 8 }
        ensures { IfOk result (λ line. string_bytes line ≡ step_line members self ++ 10 ∷ []) }
    {
        let Step {
            number,
            by,
            action,
            place,
        } = self;
        let dir = self.dir();
        let next = self.next_dir();
        let peer = peer_of(members, by, place);
        match action {
            Action::MkDir => Ok(format!(in alloc; "{by} mkdir /d{dir}\n")?),
            Action::Create => Ok(format!(in alloc; "{by} create /d{dir}/f{place} lines\n")?),
            Action::Write => {
                Ok(format!(in alloc; "{by} write /d{dir}/f{place} \"s{number}\\n\"\n")?)
            }
            Action::Rm => Ok(format!(in alloc; "{by} rm /d{dir}/f{place}\n")?),
            Action::Mv => Ok(format!(in alloc; "{by} mv /d{dir}/f{place} /d{next}/f{place}\n")?),
            Action::Resolve => Ok(format!(in alloc; "{by} resolve /d{dir}/f{place}\n")?),
            Action::Collect => Ok(format!(in alloc; "{by} collect\n")?),
            Action::Pull => Ok(format!(in alloc; "pull {by} {peer}\n")?),
        }
    }

    /// The command of the step.
    pub(crate) fn command(self, alloc: Global, members: Members) -> Result<Command, Memory>
        requires member { IsMember members self.by }
        requires place { self.place < 8 }
        ensures { IfOk result (λ command. command ≡ step_command members self) }
    {
        let Step { by, place, .. } = self;
        let dir = self.dir();
        match self.action {
            Action::MkDir => mkdir(alloc, by, dir),
            Action::Collect => Ok(Command::Collect { by }),
            Action::Pull => Ok(Command::Pull {
                by,
                to: peer_of(members, by, place),
            }),
            Action::Create => {
                let path = file_path(alloc, dir, place)?;
                Ok(changed(
                    by,
                    Change::Create {
                        path,
                        kind: Kind::Lines,
                    },
                ))
            }
            Action::Write => {
                let path = file_path(alloc, dir, place)?;
                let text = text_of(alloc, self.number)?;
                Ok(changed(by, Change::Write { path, text }))
            }
            Action::Rm => {
                let path = file_path(alloc, dir, place)?;
                Ok(changed(by, Change::Rm { path }))
            }
            Action::Mv => {
                let from = file_path(alloc, dir, place)?;
                let path = file_path(alloc, self.next_dir(), place)?;
                Ok(changed(by, Change::Mv { from, path }))
            }
            Action::Resolve => {
                let path = file_path(alloc, dir, place)?;
                Ok(changed(by, Change::Resolve { path }))
            }
        }
    }
}

/// The command by which a member makes the directory of this number.
pub(crate) fn mkdir(alloc: Global, by: u8, dir: u8) -> Result<Command, Memory>
    requires { dir < 10 }
    ensures { IfOk result (λ command. command ≡ mkdir_command by dir) }
{
    let path = dir_path(alloc, dir)?;
    Ok(changed(by, Change::MkDir { path }))
}

fn changed(by: u8, change: Change) -> Command
    ensures { result ≡ Asked by change }
{
    Command::Change { by, change }
}

// What the number below ten stands for.
fn action_of(choice: u8) -> Action
    ensures { result ≡ action_of choice }
{
    match choice {
        0 => Action::MkDir,
        1 => Action::Create,
        2 | 3 => Action::Write,
        4 => Action::Rm,
        5 => Action::Mv,
        6 => Action::Resolve,
        7 => Action::Collect,
        _ => Action::Pull,
    }
}

// Another member, of which the replica hears at the place.
fn peer_of(members: Members, by: u8, place: u8) -> u8
    requires member { IsMember members by }
    requires place { place < 8 }
    ensures { result ≡ peer_of members by place }
{
    let count = members.count();
    1 + (by + place % (count - 1)) % count
}
