ghost use Rattle.ficus_path.specs.Path.{IsNew};
ghost use Rattle.ficus_rules.specs.Rule.{UnlessMemory};
ghost use Rattle.ficus_deciding.specs.NewName.{NewNameRule};
ghost use Rattle.ficus_deciding.specs.View.{tables_view};

use crate::limits::is_spent;
use crate::walk::{is_taken, last_name};
use ficus_durable_state::Saved;
use ficus_ids::{Id, Name, Refusal};
use ficus_path::Path;

/// The name of a new path, which one more update may enter in the directory.
pub(crate) fn new_name(saved: &Saved, dir: Id, path: &Path) -> Result<Name, Refusal>
    requires { IsNew path.now }
    ensures { UnlessMemory (NewNameRule (tables_view saved.now) dir path.now) result }
{
    if is_taken(saved, dir, path) {
        return Err(Refusal::Exists);
    }
    if is_spent(saved) {
        return Err(Refusal::Spent);
    }
    let name = last_name(path).copy()?;
    Ok(name)
}
