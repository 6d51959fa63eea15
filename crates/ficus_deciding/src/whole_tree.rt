ghost use Rattle.std.specs.Prelude.{IfOk};
ghost use Rattle.ficus_durable_state.specs.Saved.{FitsImage};
ghost use Rattle.ficus_rules.specs.Lines.{AreLines};
ghost use Rattle.ficus_rules.specs.View.{IsReachedIn};
ghost use Rattle.ficus_deciding.specs.View.{tables_view};

use crate::lines::add_lines;
use ficus_durable_state::Saved;
use ficus_ids::{Memory, ROOT};
use ficus_names::{Directories, Line};
use ficus_reach::reached;
use std::alloc::Global;

/// The shown names of every directory that is reached from the root, by directory, then as in `list`.
pub fn tree(alloc: Global, saved: &Saved) -> Result<Vec<Line>, Memory>
    requires { FitsImage saved.now }
    ensures { IfOk result (λ lines.
        AreLines (tables_view saved.now) (IsReachedIn (tables_view saved.now)) lines.items) }
{
    let entries = &saved.entries;
    let directories = Directories::new(alloc, entries)?;
    let reached = reached(alloc, entries, &[ROOT])?;
    let mut lines = Vec::new(alloc);
    for dir in &reached {
        add_lines(saved, &mut lines, *dir, directories.shown(alloc, *dir)?)?;
    }
    Ok(lines)
}
