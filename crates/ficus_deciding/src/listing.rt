ghost use Rattle.ficus_durable_state.specs.Saved.{FitsImage};
ghost use Rattle.ficus_rules.specs.List.{ListRule};
ghost use Rattle.ficus_rules.specs.Rule.{UnlessMemory};
ghost use Rattle.ficus_commands.specs.declared.told.Told.TheVariants.{Names as ToldNames};
ghost use Rattle.ficus_deciding.specs.Told.{ToldAs};
ghost use Rattle.ficus_deciding.specs.View.{tables_view};

use crate::lines::add_lines;
use crate::walk::directory_at;
use ficus_durable_state::Saved;
use ficus_ids::Refusal;
use ficus_names::{Line, shown};
use ficus_path::Path;
use std::alloc::Global;

/// The shown names of the directory at a path.
pub fn list(alloc: Global, saved: &Saved, path: &Path) -> Result<Vec<Line>, Refusal>
    requires { FitsImage saved.now }
    ensures { ToldAs (λ lines. ToldNames lines.items)
        (UnlessMemory (ListRule (tables_view saved.now) path.now)) result }
{
    let dir = directory_at(saved, path)?;
    let names = shown(alloc, &saved.entries, dir)?;
    let mut lines = Vec::with_capacity(alloc, names.len())?;
    add_lines(saved, &mut lines, dir, names)?;
    Ok(lines)
}
