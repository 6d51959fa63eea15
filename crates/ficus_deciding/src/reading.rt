ghost use Rattle.ficus_durable_state.specs.Saved.{FitsImage};
ghost use Rattle.ficus_rules.specs.Read.{ReadRule};
ghost use Rattle.ficus_rules.specs.Rule.{UnlessMemory};
ghost use Rattle.ficus_commands.specs.declared.told.Told.TheVariants.{Text as ToldText};
ghost use Rattle.ficus_deciding.specs.Told.{ToldAs};
ghost use Rattle.ficus_deciding.specs.View.{tables_view};

use crate::conflict::is_conflict;
use crate::text::text_of;
use crate::walk::versioned_at;
use ficus_durable_state::Saved;
use ficus_ids::Refusal;
use ficus_path::Path;
use std::alloc::Global;

/// The bytes of the file at a path.
pub fn read(alloc: Global, saved: &Saved, path: &Path) -> Result<Vec<u8>, Refusal>
    requires { FitsImage saved.now }
    ensures { ToldAs (λ bytes. ToldText bytes.items)
        (UnlessMemory (ReadRule (tables_view saved.now) path.now)) result }
{
    let file = versioned_at(saved, path)?;
    if is_conflict(saved, file) {
        return Err(Refusal::Conflict);
    }
    Ok(text_of(saved, file).to_vec(alloc)?)
}
