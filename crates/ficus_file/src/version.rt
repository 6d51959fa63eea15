ghost use Rattle.std.specs.Prelude.{◌≡◌, ◌↔◌, IfOk, IsTrue};

use ficus_ids::{Listed, Memory};
use ficus_vectors::Vector;
use std::alloc::Global;

/// What a file held after one of its updates.
#[derive(Drop)]
pub struct Version {
    /// Which versions lie in its past, itself with them.
    pub vector: Vector,
    pub bytes: Listed<u8>,
}

impl Version {
    /// A copy of the version.
    pub fn copy(&self, alloc: Global) -> Result<Version, Memory>
        ensures { IfOk result (λ version. version ≡ self.now) }
    {
        let bytes = self.bytes.items().to_vec(alloc)?;
        Ok(Version {
            vector: self.vector,
            bytes: Listed::of(bytes),
        })
    }

    /// Whether the two are one.
    pub fn is_same_as(&self, other: &Version) -> bool
        ensures { IsTrue result ↔ (self.now ≡ other.now) }
    {
        self.vector == other.vector && self.has_bytes_of(other)
    }

    /// Whether the two have the same bytes.
    pub fn has_bytes_of(&self, other: &Version) -> bool
        ensures { IsTrue result ↔ (self.now.bytes ≡ other.now.bytes) }
    {
        self.bytes.items() == other.bytes.items()
    }
}
