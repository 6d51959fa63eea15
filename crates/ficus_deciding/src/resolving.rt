ghost use Rattle.ficus_durable_state.specs.Saved.{FitsImage};
ghost use Rattle.ficus_commands.specs.declared.change.Change.TheVariants.{Resolve};
ghost use Rattle.ficus_rules.specs.Change.{ChangeAnswer};
ghost use Rattle.ficus_deciding.specs.View.{tables_view};

use crate::conflict::is_conflict;
use crate::limits::within;
use crate::resolved::resolved;
use crate::walk::versioned_at;
use ficus_durable_state::{FILE_LIMIT, Saved};
use ficus_ids::Refusal;
use ficus_model::Op;
use ficus_path::Path;
use std::alloc::Global;

/// The end of the conflict of the file at a path, by what the resolver of its kind makes of its contents.
pub fn resolve(alloc: Global, saved: &Saved, path: &Path) -> Result<Op, Refusal>
    requires { FitsImage saved.now }
    ensures { ChangeAnswer (tables_view saved.now) (Resolve path.now) result }
{
    let file = versioned_at(saved, path)?;
    if !is_conflict(saved, file) {
        return Err(Refusal::NoConflict);
    }
    let bytes = resolved(alloc, saved, file)?;
    within(saved, FILE_LIMIT, bytes.items().len())?;
    Ok(Op::Resolve {
        file: file.id,
        bytes,
    })
}
