ghost use Rattle.std.specs.Prelude.{IfOk};
ghost use Rattle.ficus_commands.specs.Change.{HasFitPaths};
ghost use Rattle.ficus_path.specs.Path.{IsEntry, IsNew};

use crate::fault::Fault;
use ficus_commands::Change;
use ficus_ids::{Kind, Listed, Sort};
use ficus_path::{Path, read_path};
use std::alloc::Global;

/// What a test has a replica make.
#[derive(Clone, Copy, Debug)]
pub(crate) enum Make {
    /// The directory at this path.
    Directory(&'static str),
    /// The object `/f` of a kind, without a text, or with one byte where it is a symbolic link.
    File(Kind),
    /// A write of so many bytes to the file `/f`.
    Text(usize),
    /// A removal of the file `/f`.
    Removal,
    /// A move of what is at the first path to the second.
    Move(&'static str, &'static str),
}

/// The change that makes this.
pub(crate) fn change_of(alloc: Global, make: Make) -> Result<Change, Fault>
    ensures { IfOk result HasFitPaths }
{
    match make {
        Make::Directory(name) => directory_of(alloc, name),
        Make::File(kind) => made_of(alloc, kind),
        Make::Text(length) => write_of(alloc, length),
        Make::Removal => removal_of(alloc),
        Make::Move(from, to) => move_of(alloc, from, to),
    }
}

fn directory_of(alloc: Global, name: &str) -> Result<Change, Fault>
    ensures { IfOk result HasFitPaths }
{
    let path = new_path(alloc, name.as_bytes())?;
    Ok(Change::MkDir { path })
}

// The object `/f` of a kind.
fn made_of(alloc: Global, kind: Kind) -> Result<Change, Fault>
    ensures { IfOk result HasFitPaths }
{
    match kind.sort() {
        Sort::Directory | Sort::Versioned => {
            let path = new_path(alloc, b"/f")?;
            Ok(Change::Create { path, kind })
        }
        Sort::Fixed => link_of(alloc),
    }
}

// The symbolic link `/f`.
fn link_of(alloc: Global) -> Result<Change, Fault>
    ensures { IfOk result HasFitPaths }
{
    let text = Listed::of(vec![in alloc; b'n'; 1]?);
    let path = new_path(alloc, b"/f")?;
    Ok(Change::Symlink { path, text })
}

fn write_of(alloc: Global, length: usize) -> Result<Change, Fault>
    ensures { IfOk result HasFitPaths }
{
    let text = Listed::of(vec![in alloc; b'n'; length]?);
    let path = read_path(alloc, b"/f")?;
    Ok(Change::Write { path, text })
}

fn removal_of(alloc: Global) -> Result<Change, Fault>
    ensures { IfOk result HasFitPaths }
{
    let path = entry_path(alloc, b"/f")?;
    Ok(Change::Rm { path })
}

fn move_of(alloc: Global, from: &str, to: &str) -> Result<Change, Fault>
    ensures { IfOk result HasFitPaths }
{
    let from = entry_path(alloc, from.as_bytes())?;
    let path = new_path(alloc, to.as_bytes())?;
    Ok(Change::Mv { from, path })
}

pub(crate) fn new_path(alloc: Global, name: &[u8]) -> Result<Path, Fault>
    ensures { IfOk result IsNew }
{
    let path = read_path(alloc, name)?;
    if !path.is_new() {
        return Err(Fault::NotNew);
    }
    Ok(path)
}

pub(crate) fn entry_path(alloc: Global, name: &[u8]) -> Result<Path, Fault>
    ensures { IfOk result IsEntry }
{
    let path = read_path(alloc, name)?;
    if !path.is_entry() {
        return Err(Fault::NotEntry);
    }
    Ok(path)
}
