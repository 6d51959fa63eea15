ghost use Rattle.std.specs.Prelude.{Bool, []};
ghost use Rattle.ficus_path.specs.Path.{at_orphan};
ghost use Rattle.ficus_top.specs.Graft.Courses.{AreCourses, IsCourse};
ghost use Rattle.ficus_script.specs.declared.command.Command.TheVariants.{Change as Changes, Look as Looks};

use ficus_commands::{Change, Look};
use ficus_ids::Id;
use ficus_path::{Base, Part, Path};
use ficus_script::Command;

/// A path of a command, and how many of its parts, from the first on, may lead to volumes.
#[derive(Clone, Copy)]
pub(crate) struct Course<'a> {
    pub(crate) base: Base,
    pub(crate) parts: &'a [Part],
    pub(crate) most: usize,
}

/// The paths of a command, in order, and the number of the replica that leads it.
#[derive(Clone, Copy)]
pub(crate) enum Courses<'a> {
    None,
    One(u8, Course<'a>),
    Two(u8, Course<'a>, Course<'a>),
}

/// The paths of the command.
pub(crate) fn courses_of(command: &Command) -> Courses<'_>
    ensures { AreCourses command.now result }
{
    match command {
        Command::Change { by, change } => change_courses(*by, change),
        Command::Look { by, look } => look_courses(*by, look),
        _ => Courses::None,
    }
}

fn change_courses(by: u8, change: &Change) -> Courses<'_>
    ensures { AreCourses (Changes by change.now) result }
{
    match change {
        Change::MkDir { path }
        | Change::Create { path, .. }
        | Change::Symlink { path, .. }
        | Change::Rm { path } => Courses::One(by, to_entry(path)),
        Change::Write { path, .. } | Change::Settle { path, .. } | Change::Resolve { path } => {
            Courses::One(by, to_object(path))
        }
        Change::Ln { from, path } | Change::Mv { from, path } => {
            Courses::Two(by, to_entry(from), to_entry(path))
        }
        Change::Adopt { orphan, path } => Courses::Two(by, at_orphan(*orphan), to_entry(path)),
        Change::Discard { orphan } => Courses::One(by, at_orphan(*orphan)),
    }
}

fn look_courses(by: u8, look: &Look) -> Courses<'_>
    ensures { AreCourses (Looks by look.now) result }
{
    match look {
        Look::Ls { path }
        | Look::Read { path }
        | Look::Versions { path }
        | Look::ReadLink { path } => Courses::One(by, to_object(path)),
        Look::Tree | Look::Conflicts | Look::Orphans | Look::Detached | Look::Marks =>
            Courses::None,
    }
}

// The course along the path of an entry, or a new one: its last part leads to no volume.
fn to_entry(path: &Path) -> Course<'_>
    ensures { IsCourse Bool.true result path.now }
{
    let parts = path.parts.items();
    Course {
        base: path.base,
        parts,
        most: parts.len().saturating_sub(1),
    }
}

// The course along a path: each of its parts may lead to a volume.
fn to_object(path: &Path) -> Course<'_>
    ensures { IsCourse Bool.false result path.now }
{
    let parts = path.parts.items();
    Course {
        base: path.base,
        parts,
        most: parts.len(),
    }
}

// The course that begins at an orphan, and ends there.
fn at_orphan<'a>(orphan: Id) -> Course<'a>
    ensures entry { IsCourse Bool.true result (at_orphan orphan) }
    ensures object { IsCourse Bool.false result (at_orphan orphan) }
{
    Course {
        base: Base::Orphan(orphan),
        parts: &[],
        most: 0,
    }
}
