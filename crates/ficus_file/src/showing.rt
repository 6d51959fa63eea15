ghost use Rattle.std.specs.Prelude.{◌↔◌, IsTrue};
ghost use Rattle.ficus_file.specs.Showing.{ShowsSame};

use crate::FileReplica;
use crate::versions::are_same;

impl FileReplica {
    /// Whether the two are of one kind and have the same versions, whatever is covered of them.
    pub fn shows_same_as(&self, other: &FileReplica) -> bool
        ensures { IsTrue result ↔ ShowsSame self.now other.now }
    {
        self.kind == other.kind && are_same(self.versions.items(), other.versions.items())
    }
}
