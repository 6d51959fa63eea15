ghost use Rattle.std.specs.Prelude.{◌≡◌, ◌↔◌, [], ◌∷◌, IfOk, IsTrue};
ghost use Rattle.ficus_vectors.specs.Vector.{join};
ghost use Rattle.ficus_file.specs.Version.{join_all};

use crate::Version;
use ficus_ids::Memory;
use ficus_vectors::Vector;
use std::alloc::Global;
use std::marker::Model;
use std::rc::Rc;

/// The versions of a file. Contracts see them as a list.
#[derive(Drop)]
pub struct Versions {
    list: VersionList,
}

// A version that came without memory stands alone, until a call that takes memory makes it one that copies share.
#[derive(Drop)]
enum VersionList {
    Empty,
    One(Version),
    Shared(Rc<Vec<Version>>),
}

impl Model for Versions {
    ghost use Rattle.std.specs.Prelude.{List};
    ghost use Rattle.ficus_file.specs.declared.version.Version.{Version as VersionValue};

    ghost Value = { List VersionValue };

    ghost use Rattle.ficus_file.specs.VersionList.{versions_of};

    ghost view = { λ v. versions_of v.list };
}

impl Versions {
    /// No version. Takes no memory.
    pub fn none() -> Versions
        ensures { result ≡ [] }
    {
        Versions {
            list: VersionList::Empty,
        }
    }

    /// One version. Takes no memory.
    pub fn one(version: Version) -> Versions
        ensures { result ≡ version ∷ [] }
    {
        Versions {
            list: VersionList::One(version),
        }
    }

    /// Versions that copies share.
    pub fn of(alloc: Global, versions: Vec<Version>) -> Result<Versions, Memory>
        ensures { IfOk result (λ of. of ≡ versions.items) }
    {
        let versions = Rc::new(alloc, versions)?;
        Ok(Versions {
            list: VersionList::Shared(versions),
        })
    }

    /// The versions, in order.
    pub fn items(&self) -> &[Version]
        ensures { result.now ≡ self.now }
    {
        match &self.list {
            VersionList::Empty => &[],
            VersionList::One(version) => std::slice::from_ref(version),
            VersionList::Shared(versions) => versions.as_ref().as_slice(),
        }
    }

    /// A copy of the versions, which shares them. Only bytes that came without memory are copied.
    pub fn copy(&self, alloc: Global) -> Result<Versions, Memory>
        ensures { IfOk result (λ versions. versions ≡ self.now) }
    {
        match &self.list {
            VersionList::Empty => Ok(Versions::none()),
            VersionList::One(version) => Ok(Versions::one(version.copy(alloc)?)),
            VersionList::Shared(versions) => {
                let versions = versions.clone()?;
                Ok(Versions {
                    list: VersionList::Shared(versions),
                })
            }
        }
    }

    /// The versions in memory that copies share.
    pub fn into_shared(self, alloc: Global) -> Result<Versions, Memory>
        ensures { IfOk result (λ versions. versions ≡ self) }
    {
        match self.list {
            VersionList::One(version) => {
                let mut versions = Vec::with_capacity(alloc, 1)?;
                versions.push(version)?;
                Versions::of(alloc, versions)
            }
            list => Ok(Versions { list }),
        }
    }
}

/// Whether the two lists have the same versions.
pub(crate) fn are_same(versions: &[Version], others: &[Version]) -> bool
    ensures { IsTrue result ↔ (versions.now ≡ others.now) }
{
    if versions.len() != others.len() {
        return false;
    }
    for index in 0..versions.len() {
        if !versions[index].is_same_as(&others[index]) {
            return false;
        }
    }
    true
}

/// The join of a vector and those of versions.
pub fn joined(versions: &[Version], from: Vector) -> Vector
    ensures { result ≡ join from (join_all versions.now) }
{
    let mut vector = from;
    for version in versions {
        vector = vector.join(version.vector);
    }
    vector
}
