ghost use Rattle.std.specs.Prelude.{◌≡◌, ◌≢◌, IfOk, [], drop};
ghost use Rattle.ficus_path.specs.Path.{path_from};
ghost use Rattle.ficus_path.specs.declared.path.Path.{Path as PathValue};
ghost use Rattle.ficus_top.specs.Graft.Paths.{along, base_behind, change_along, look_along, paths_of, rest_behind};

use ficus_commands::{Change, Look};
use ficus_ids::{Listed, Memory};
use ficus_path::{Base, Part, Path};
use ficus_script::Command;
use std::alloc::Global;

/// The command with what is left of its paths behind so many parts, a copy.
pub(crate) fn command_behind(
    alloc: Global,
    command: &Command,
    first: usize,
    second: usize,
) -> Result<Command, Memory>
    requires { paths_of command.now ≢ [] }
    ensures { IfOk result (λ rest. rest ≡ along (rest_behind first) (rest_behind second) command.now) }
{
    match command {
        Command::Change { by, change } => Ok(Command::Change {
            by: *by,
            change: change_behind(alloc, change, first, second)?,
        }),
        Command::Look { by, look } => Ok(Command::Look {
            by: *by,
            look: look_behind(alloc, look, first)?,
        }),
        _ => unreachable!(),
    }
}

fn change_behind(
    alloc: Global,
    change: &Change,
    first: usize,
    second: usize,
) -> Result<Change, Memory>
    ensures { IfOk result (λ rest. rest ≡ change_along (rest_behind first) (rest_behind second) change.now) }
{
    match change {
        Change::MkDir { path } => Ok(Change::MkDir {
            path: path_behind(alloc, path, first)?,
        }),
        Change::Create { path, kind } => Ok(Change::Create {
            path: path_behind(alloc, path, first)?,
            kind: *kind,
        }),
        Change::Symlink { path, text } => Ok(Change::Symlink {
            path: path_behind(alloc, path, first)?,
            text: copied(alloc, text)?,
        }),
        Change::Write { path, text } => Ok(Change::Write {
            path: path_behind(alloc, path, first)?,
            text: copied(alloc, text)?,
        }),
        Change::Settle { path, text } => Ok(Change::Settle {
            path: path_behind(alloc, path, first)?,
            text: copied(alloc, text)?,
        }),
        Change::Resolve { path } => Ok(Change::Resolve {
            path: path_behind(alloc, path, first)?,
        }),
        Change::Rm { path } => Ok(Change::Rm {
            path: path_behind(alloc, path, first)?,
        }),
        Change::Ln { from, path } => Ok(Change::Ln {
            from: path_behind(alloc, from, first)?,
            path: path_behind(alloc, path, second)?,
        }),
        Change::Mv { from, path } => Ok(Change::Mv {
            from: path_behind(alloc, from, first)?,
            path: path_behind(alloc, path, second)?,
        }),
        Change::Adopt { orphan, path } => Ok(Change::Adopt {
            orphan: *orphan,
            path: path_behind(alloc, path, second)?,
        }),
        Change::Discard { orphan } => Ok(Change::Discard { orphan: *orphan }),
    }
}

fn look_behind(alloc: Global, look: &Look, first: usize) -> Result<Look, Memory>
    ensures { IfOk result (λ rest. (g : PathValue → PathValue) → rest ≡ look_along (rest_behind first) g look.now) }
{
    match look {
        Look::Ls { path } => Ok(Look::Ls {
            path: path_behind(alloc, path, first)?,
        }),
        Look::Read { path } => Ok(Look::Read {
            path: path_behind(alloc, path, first)?,
        }),
        Look::Versions { path } => Ok(Look::Versions {
            path: path_behind(alloc, path, first)?,
        }),
        Look::ReadLink { path } => Ok(Look::ReadLink {
            path: path_behind(alloc, path, first)?,
        }),
        Look::Tree => Ok(Look::Tree),
        Look::Conflicts => Ok(Look::Conflicts),
        Look::Orphans => Ok(Look::Orphans),
        Look::Detached => Ok(Look::Detached),
        Look::Marks => Ok(Look::Marks),
    }
}

// What is left of the path behind so many parts.
fn path_behind(alloc: Global, path: &Path, passed: usize) -> Result<Path, Memory>
    ensures { IfOk result (λ rest. rest ≡ rest_behind passed path.now) }
{
    let parts = parts_behind(path.parts.items(), passed);
    path_of(alloc, base_behind(path.base, passed), parts)
}

// The parts behind so many.
fn parts_behind(parts: &[Part], passed: usize) -> &[Part]
    ensures { result.now ≡ drop passed parts.now }
{
    if passed <= parts.len() {
        &parts[passed..]
    } else {
        &[]
    }
}

/// Where what is left of a path begins, behind so many parts.
pub(crate) fn base_behind(base: Base, passed: usize) -> Base
    ensures { result ≡ base_behind passed base }
{
    if passed == 0 { base } else { Base::Root }
}

/// The path from the base along copies of the parts.
pub(crate) fn path_of(alloc: Global, base: Base, parts: &[Part]) -> Result<Path, Memory>
    ensures { IfOk result (λ path. path ≡ path_from base parts.now) }
{
    let mut copies = Vec::with_capacity(alloc, parts.len())?;
    for part in parts {
        copies.push(copy_of(part)?)?;
    }
    Ok(Path {
        base,
        parts: Listed::of(copies),
    })
}

// The part once more. A name lies in the value itself, so this takes no memory.
fn copy_of(part: &Part) -> Result<Part, Memory>
    ensures { IfOk result (λ copy. copy ≡ part.now) }
{
    Ok(Part {
        name: part.name.copy()?,
        target: part.target,
    })
}

// The text once more.
fn copied(alloc: Global, text: &Listed<u8>) -> Result<Listed<u8>, Memory>
    ensures { IfOk result (λ copy. copy ≡ text.now) }
{
    Ok(Listed::of(text.items().to_vec(alloc)?))
}
