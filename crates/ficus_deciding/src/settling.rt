ghost use Rattle.ficus_durable_state.specs.Saved.{FitsImage};
ghost use Rattle.ficus_rules.specs.Rule.{UnlessMemory};
ghost use Rattle.ficus_rules.specs.Settle.{SettleRule};
ghost use Rattle.ficus_deciding.specs.View.{tables_view};

use crate::conflict::is_conflict;
use crate::limits::bytes_within;
use crate::walk::versioned_at;
use ficus_durable_state::{FILE_LIMIT, Saved};
use ficus_ids::Refusal;
use ficus_model::Op;
use ficus_path::Path;
use std::alloc::Global;

/// The end of the conflict of the file at a path, by these bytes.
pub fn settle(alloc: Global, saved: &Saved, path: &Path, bytes: &[u8]) -> Result<Op, Refusal>
    requires { FitsImage saved.now }
    ensures { UnlessMemory (SettleRule (tables_view saved.now) path.now bytes.now) result }
{
    let file = versioned_at(saved, path)?;
    if !is_conflict(saved, file) {
        return Err(Refusal::NoConflict);
    }
    let bytes = bytes_within(alloc, saved, FILE_LIMIT, bytes)?;
    Ok(Op::Settle {
        file: file.id,
        bytes,
    })
}
