ghost use Rattle.std.specs.Prelude.{◌↔◌, IsTrue};
ghost use Rattle.ficus_durable_state.specs.Saved.{FitsImage};
ghost use Rattle.ficus_deciding.specs.Files.{IsFileIn};
ghost use Rattle.ficus_deciding.specs.View.{tables_view};

use ficus_durable_state::Saved;
use ficus_file::FileReplica;

/// Whether the file is in conflict.
pub(crate) fn is_conflict(saved: &Saved, file: &FileReplica) -> bool
    requires fits { FitsImage saved.now }
    requires file { IsFileIn saved.now file.now }
    ensures { IsTrue result ↔ (tables_view saved.now).conflicts file.now.id }
{
    file.is_conflict()
}
