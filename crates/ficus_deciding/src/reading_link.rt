ghost use Rattle.ficus_durable_state.specs.Saved.{FitsImage};
ghost use Rattle.ficus_rules.specs.ReadLink.{ReadLinkRule};
ghost use Rattle.ficus_rules.specs.Rule.{UnlessMemory};
ghost use Rattle.ficus_commands.specs.declared.told.Told.TheVariants.{Text as ToldText};
ghost use Rattle.ficus_deciding.specs.Told.{ToldAs};
ghost use Rattle.ficus_deciding.specs.View.{tables_view};

use crate::text::text_of;
use crate::walk::fixed_at;
use ficus_durable_state::Saved;
use ficus_ids::Refusal;
use ficus_path::Path;
use std::alloc::Global;

/// The text of the symbolic link at a path.
pub fn readlink(alloc: Global, saved: &Saved, path: &Path) -> Result<Vec<u8>, Refusal>
    requires { FitsImage saved.now }
    ensures { ToldAs (λ bytes. ToldText bytes.items)
        (UnlessMemory (ReadLinkRule (tables_view saved.now) path.now)) result }
{
    let file = fixed_at(saved, path)?;
    Ok(text_of(saved, file).to_vec(alloc)?)
}
