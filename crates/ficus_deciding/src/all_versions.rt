ghost use Rattle.std.specs.Prelude.{◌≡◌, IfOk};
ghost use Rattle.ficus_durable_state.specs.Saved.{FitsImage};
ghost use Rattle.ficus_rules.specs.Rule.{UnlessMemory};
ghost use Rattle.ficus_rules.specs.Versions.{VersionsRule};
ghost use Rattle.ficus_commands.specs.declared.told.Told.TheVariants.{Versions as ToldVersions};
ghost use Rattle.ficus_deciding.specs.Told.{ToldAs};
ghost use Rattle.ficus_deciding.specs.View.{tables_view};

use crate::walk::versioned_at;
use ficus_durable_state::Saved;
use ficus_file::Version;
use ficus_ids::{Memory, Refusal};
use ficus_path::Path;
use std::alloc::Global;

/// The versions of the file at a path, in the order of vectors.
pub fn versions(alloc: Global, saved: &Saved, path: &Path) -> Result<Vec<Version>, Refusal>
    requires { FitsImage saved.now }
    ensures { ToldAs (λ list. ToldVersions saved.now.members list.items)
        (UnlessMemory (VersionsRule (tables_view saved.now) path.now)) result }
{
    let file = versioned_at(saved, path)?;
    Ok(copies(alloc, file.versions.items())?)
}

// The versions once more.
fn copies(alloc: Global, versions: &[Version]) -> Result<Vec<Version>, Memory>
    ensures { IfOk result (λ copies. copies.items ≡ versions.now) }
{
    let mut copies = Vec::with_capacity(alloc, versions.len())?;
    for version in versions {
        copies.push(version.copy(alloc)?)?;
    }
    Ok(copies)
}
