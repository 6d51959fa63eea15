ghost use Rattle.ficus_durable_state.specs.Saved.{FitsImage};
ghost use Rattle.ficus_path.specs.Path.{IsEntry, IsNew};
ghost use Rattle.ficus_rules.specs.Link.{LinkRule};
ghost use Rattle.ficus_rules.specs.Rule.{UnlessMemory};
ghost use Rattle.ficus_deciding.specs.View.{tables_view};

use crate::new_name::new_name;
use crate::walk::{is_directory, places_of};
use ficus_durable_state::Saved;
use ficus_ids::Refusal;
use ficus_model::Op;
use ficus_path::Path;

/// A further name, at a new path, for the file at a path.
pub fn link(saved: &Saved, from: &Path, path: &Path) -> Result<Op, Refusal>
    requires fits { FitsImage saved.now }
    requires entry { IsEntry from.now }
    requires new { IsNew path.now }
    ensures { UnlessMemory (LinkRule (tables_view saved.now) from.now path.now) result }
{
    let places = places_of(saved, from, path)?;
    if is_directory(saved, places.found.object) {
        return Err(Refusal::IsDir);
    }
    let name = new_name(saved, places.dir, path)?;
    Ok(Op::Link {
        dir: places.dir,
        name,
        target: places.found.object,
    })
}
