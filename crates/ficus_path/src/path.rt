ghost use Rattle.std.specs.Prelude.{◌≡◌, ◌↔◌, IsTrue, IfOk};
ghost use Rattle.ficus_path.specs.declared.path.PathFault.TheVariants.{Memory as OutOfMemory};
ghost use Rattle.ficus_path.specs.Path.{IsEntry, IsNew, path_from};

use ficus_ids::{Id, Listed, Memory, Name};
use std::alloc::Global;
use std::error::Error;
use std::fmt;

/// The most parts that a path has.
pub const PART_LIMIT: usize = 32;

/// Where a path begins.
#[derive(Clone, Copy)]
pub enum Base {
    /// At the root of the volume.
    Root,
    /// At the orphan of this identifier, which no live entry names.
    Orphan(Id),
}

/// One step of a path: the entry of this name in the directory reached so far. Where several live entries of
/// the directory have the name, the target tells which one is meant.
#[derive(Drop)]
pub struct Part {
    pub name: Name,
    pub target: Option<Id>,
}

/// Where an object is looked for: from the base, through at most 32 parts.
#[derive(Drop)]
pub struct Path {
    pub base: Base,
    pub parts: Listed<Part>,
}

/// Why bytes gave no path.
#[derive(Clone, Copy, Debug, PartialEq, Eq)]
pub enum PathFault {
    /// The bytes spell no path.
    NotPath,
    /// Memory was refused.
    Memory,
}

impl fmt::Display for PathFault {
    ghost use Rattle.std.specs.Prelude.{Some};
    ghost use Rattle.ficus_path.specs.Path.{fault_text};

    ghost output = { λ fault. Some (fault_text fault) };

    fn fmt<W: fmt::Write>(&self, f: &mut fmt::Formatter<W>) -> fmt::Result {
        f.write_str(match self {
            PathFault::NotPath => "not a path",
            PathFault::Memory => "memory",
        })
    }
}

impl Error for PathFault {}

impl From<Memory> for PathFault {
    ghost from_gives = { λ _ fault. fault ≡ OutOfMemory };

    fn from(_: Memory) -> PathFault {
        PathFault::Memory
    }
}

impl Part {
    pub(crate) fn copy(&self) -> Result<Part, Memory>
        ensures { IfOk result (λ part. part ≡ self.now) }
    {
        Ok(Part {
            name: self.name.copy()?,
            target: self.target,
        })
    }
}

impl Path {
    // The path from a base through these parts.
    pub(crate) fn through(base: Base, parts: Vec<Part>) -> Path
        ensures { result ≡ path_from base parts.items }
    {
        Path {
            base,
            parts: Listed::of(parts),
        }
    }

    /// A copy of the path, with its parts.
    pub fn copy(&self, alloc: Global) -> Result<Path, Memory>
        ensures { IfOk result (λ path. path ≡ self.now) }
    {
        let mut parts = Vec::new(alloc);
        for part in self.parts.items() {
            parts.push(part.copy()?)?;
        }
        Ok(Path::through(self.base, parts))
    }

    /// Whether it names an entry: whether it has a part.
    pub fn is_entry(&self) -> bool
        ensures { IsTrue result ↔ IsEntry self.now }
    {
        !self.parts.items().is_empty()
    }

    /// Whether it may name an entry that is yet to be made: whether it has a part, and the last one has no target.
    pub fn is_new(&self) -> bool
        ensures { IsTrue result ↔ IsNew self.now }
    {
        self.parts
            .items()
            .last()
            .is_some_and(|part| part.target.is_none())
    }
}
