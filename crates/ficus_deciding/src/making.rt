ghost use Rattle.std.specs.Prelude.{[]};
ghost use Rattle.ficus_ids.specs.Kind.{FitsKind};
ghost use Rattle.ficus_durable_state.specs.Saved.{FitsImage};
ghost use Rattle.ficus_path.specs.Path.{IsNew};
ghost use Rattle.ficus_rules.specs.Make.{MakeRule};
ghost use Rattle.ficus_rules.specs.Rule.{UnlessMemory};
ghost use Rattle.ficus_deciding.specs.View.{tables_view};

use crate::new_name::new_name;
use crate::walk::parent_of;
use ficus_durable_state::Saved;
use ficus_ids::{Kind, Listed, Refusal};
use ficus_model::Op;
use ficus_path::Path;
use std::alloc::Global;

/// The making of an object without a text at a new path.
pub fn make(alloc: Global, saved: &Saved, path: &Path, kind: Kind) -> Result<Op, Refusal>
    requires fits { FitsImage saved.now }
    requires new { IsNew path.now }
    requires kind { FitsKind kind [] }
    ensures { UnlessMemory (MakeRule (tables_view saved.now) path.now kind) result }
{
    let dir = parent_of(saved, path)?;
    let name = new_name(saved, dir, path)?;
    Ok(Op::Make {
        dir,
        name,
        kind,
        text: Listed::of(Vec::new(alloc)),
    })
}
