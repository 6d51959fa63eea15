ghost use Rattle.std.specs.Prelude.{◌≡◌, ◌≢◌, ◌↔◌, ◌≤◌, [], ◌∷◌, Ok, IfOk, IsTrue, Contains};
ghost use Rattle.ficus_ids.specs.Kind.{FitsKind};
ghost use Rattle.ficus_ids.specs.declared.kind.Kind.TheVariants.{Dir};
ghost use Rattle.ficus_file.specs.declared.version.Version.{Version as VersionValue};
ghost use Rattle.ficus_file.specs.Version.{join_all, HasTwoTexts};
ghost use Rattle.ficus_file.specs.File.{over_all, made_file, advanced, covered_file, IsWellFormed, MayAdvance, HasUncovered};

use crate::versions::{are_same, joined};
use crate::{Version, Versions};
use ficus_ids::{Id, Kind, Listed, Memory, Sort};
use ficus_vectors::Vector;
use std::alloc::Global;

/// A file or a directory as one replica has it.
#[derive(Drop)]
pub struct FileReplica {
    pub id: Id,
    pub kind: Kind,
    /// Those that none known here has in its past: none of a directory, and of a file 1 to 8 in the order of vectors.
    pub versions: Versions,
    /// Which versions lie in the past of a known removal.
    pub covered: Vector,
}

impl FileReplica {
    /// An object that a replica from 1 to 8 makes with a text, which is empty but for a symbolic link, where it has 1
    /// to 1,024 bytes. All but a directory have one version, with the text as bytes. `Memory` never comes.
    pub fn made(id: Id, kind: Kind, by: u8, text: Vec<u8>) -> Result<FileReplica, Memory>
        requires at_least { 1 ≤ by }
        requires at_most { by ≤ 8 }
        requires text { FitsKind kind text.items }
        ensures made { result ≡ Ok (made_file id kind by text.items) }
        ensures well_formed { IsWellFormed (made_file id kind by text.items) }
    {
        let versions = match kind.sort() {
            Sort::Directory => Versions::none(),
            Sort::Versioned | Sort::Fixed => first(by, text),
        };
        Ok(FileReplica {
            id,
            kind,
            versions,
            covered: Vector::zero(),
        })
    }

    /// A copy of the file, which shares its versions. Only bytes that came without memory are copied.
    pub fn copy(&self, alloc: Global) -> Result<FileReplica, Memory>
        ensures { IfOk result (λ file. file ≡ self.now) }
    {
        Ok(FileReplica {
            id: self.id,
            kind: self.kind,
            versions: self.versions.copy(alloc)?,
            covered: self.covered,
        })
    }

    /// The file with its versions in memory that copies share.
    pub(crate) fn into_shared(self, alloc: Global) -> Result<FileReplica, Memory>
        ensures { IfOk result (λ file. file ≡ self) }
    {
        Ok(FileReplica {
            id: self.id,
            kind: self.kind,
            versions: self.versions.into_shared(alloc)?,
            covered: self.covered,
        })
    }

    /// Whether the two are one.
    pub fn is_same_as(&self, other: &FileReplica) -> bool
        ensures { IsTrue result ↔ (self.now ≡ other.now) }
    {
        self.id == other.id
            && self.kind == other.kind
            && self.covered == other.covered
            && are_same(self.versions.items(), other.versions.items())
    }

    /// One version in place of all: over them, by a replica from 1 to 8, and with these bytes. Takes no memory.
    pub fn advance(&mut self, by: u8, bytes: Vec<u8>)
        requires at_least { 1 ≤ by }
        requires at_most { by ≤ 8 }
        requires may { MayAdvance by self.old }
        ensures advanced { self.new ≡ advanced by bytes.items self.old }
        ensures well_formed { IsWellFormed self.new }
    {
        *self = self.advanced(by, bytes);
    }

    /// What `advance` makes of the file. Takes no memory.
    pub(crate) fn advanced(&self, by: u8, bytes: Vec<u8>) -> FileReplica
        requires at_least { 1 ≤ by }
        requires at_most { by ≤ 8 }
        requires may { MayAdvance by self.now }
        ensures advanced { result ≡ advanced by bytes.items self.now }
        ensures well_formed { IsWellFormed result }
    {
        let Some(vector) = joined(self.versions.items(), Vector::zero()).bump(by) else {
            unreachable!()
        };
        FileReplica {
            id: self.id,
            kind: self.kind,
            versions: Versions::one(Version {
                vector,
                bytes: Listed::of(bytes),
            }),
            covered: self.covered,
        }
    }

    /// Each version is covered. Takes no memory.
    pub fn cover(&mut self)
        ensures covered { self.new ≡ covered_file self.old }
        ensures well_formed { IsWellFormed self.old → IsWellFormed self.new }
    {
        self.covered = joined(self.versions.items(), self.covered);
    }

    /// Whether two versions differ in bytes.
    pub fn is_conflict(&self) -> bool
        ensures { IsTrue result ↔ HasTwoTexts self.now.versions }
    {
        differ(self.versions.items())
    }

    /// Whether some version isn't covered.
    pub fn uncovered(&self) -> bool
        ensures { IsTrue result ↔ HasUncovered self.now }
    {
        for version in self.versions.items() {
            if !self.covered.covers(version.vector) {
                return true;
            }
        }
        false
    }

    /// The bytes of a file that isn't in conflict: those of each of its versions.
    pub fn bytes(&self) -> &[u8]
        requires well_formed { IsWellFormed self.now }
        requires file { self.now.kind ≢ Dir }
        requires one_text { HasTwoTexts self.now.versions → ⊥ }
        ensures { (version : VersionValue) → Contains self.now.versions version → version.bytes ≡ result.now }
    {
        let versions = self.versions.items();
        versions[0].bytes.items()
    }
}

// The one version that an object has which was made with a text.
fn first(by: u8, text: Vec<u8>) -> Versions
    requires at_least { 1 ≤ by }
    requires at_most { by ≤ 8 }
    ensures { result ≡ over_all by text.items [] ∷ [] }
{
    let Some(vector) = Vector::zero().bump(by) else {
        unreachable!()
    };
    Versions::one(Version {
        vector,
        bytes: Listed::of(text),
    })
}

// Whether two of the versions differ in bytes: then one of them differs from the first.
fn differ(versions: &[Version]) -> bool
    ensures { IsTrue result ↔ HasTwoTexts versions.now }
{
    for version in versions {
        if !version.has_bytes_of(&versions[0]) {
            return true;
        }
    }
    false
}
