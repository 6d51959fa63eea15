ghost use Rattle.ficus_durable_state.specs.Saved.{FitsImage};
ghost use Rattle.ficus_commands.specs.declared.change.Change.TheVariants.{Adopt};
ghost use Rattle.ficus_path.specs.Path.{IsNew};
ghost use Rattle.ficus_rules.specs.Change.{ChangeAnswer};
ghost use Rattle.ficus_deciding.specs.View.{tables_view};

use crate::new_name::new_name;
use crate::renaming::is_within;
use crate::walk::{is_orphan_here, parent_of};
use ficus_durable_state::Saved;
use ficus_ids::{Id, Refusal};
use ficus_model::Op;
use ficus_path::Path;
use std::alloc::Global;

/// A name, at a new path, for an orphan.
pub fn adopt(alloc: Global, saved: &Saved, orphan: Id, path: &Path) -> Result<Op, Refusal>
    requires fits { FitsImage saved.now }
    requires new { IsNew path.now }
    ensures { ChangeAnswer (tables_view saved.now) (Adopt orphan path.now) result }
{
    if !is_orphan_here(saved, orphan) {
        return Err(Refusal::NotOrphan);
    }
    let dir = parent_of(saved, path)?;
    if is_within(alloc, saved, orphan, dir)? {
        return Err(Refusal::IntoSelf);
    }
    let name = new_name(saved, dir, path)?;
    Ok(Op::Adopt {
        file: orphan,
        dir,
        name,
    })
}
