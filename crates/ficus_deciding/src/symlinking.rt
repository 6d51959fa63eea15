ghost use Rattle.std.specs.Prelude.{◌≤◌, length};
ghost use Rattle.ficus_durable_state.specs.Saved.{FitsImage};
ghost use Rattle.ficus_path.specs.Path.{IsNew};
ghost use Rattle.ficus_rules.specs.Rule.{UnlessMemory};
ghost use Rattle.ficus_rules.specs.Symlink.{SymlinkRule};
ghost use Rattle.ficus_deciding.specs.View.{tables_view};

use crate::limits::bytes_within;
use crate::walk::{is_taken, last_name, parent_of};
use ficus_durable_state::Saved;
use ficus_ids::{FIXED_LIMIT, Kind, Refusal};
use ficus_model::Op;
use ficus_path::Path;
use std::alloc::Global;

/// The making of a symbolic link with this text at a new path.
pub fn symlink(alloc: Global, saved: &Saved, path: &Path, text: &[u8]) -> Result<Op, Refusal>
    requires fits { FitsImage saved.now }
    requires new { IsNew path.now }
    requires some { 1 ≤ length text.now }
    ensures { UnlessMemory (SymlinkRule (tables_view saved.now) path.now text.now) result }
{
    let dir = parent_of(saved, path)?;
    if is_taken(saved, dir, path) {
        return Err(Refusal::Exists);
    }
    let text = bytes_within(alloc, saved, FIXED_LIMIT, text)?;
    let name = last_name(path).copy()?;
    Ok(Op::Make {
        dir,
        name,
        kind: Kind::Symlink,
        text,
    })
}
