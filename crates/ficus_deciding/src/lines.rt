ghost use Rattle.std.specs.Prelude.{◌≡◌, ◌++◌, List, All, OnOk};
ghost use Rattle.ficus_durable_state.specs.Saved.{FitsImage};
ghost use Rattle.ficus_names.specs.declared.listing.Line.{Line as LineValue};
ghost use Rattle.ficus_rules.specs.Lines.{AreLinesOf, TellsObject};
ghost use Rattle.ficus_deciding.specs.View.{tables_view, IsVisibleBy};

use crate::walk::visible;
use ficus_durable_state::Saved;
use ficus_ids::{Id, Memory};
use ficus_names::{Line, ShownName};

/// Adds the lines of a directory. What is left after `Memory` is of no use.
pub(crate) fn add_lines(
    saved: &Saved,
    lines: &mut Vec<Line>,
    dir: Id,
    names: Vec<ShownName>,
) -> Result<(), Memory>
    requires fits { FitsImage saved.now }
    requires visible { All (λ shown. IsVisibleBy saved.now shown.target) names.items }
    ensures { OnOk result ((more : List LineValue) × AreLinesOf (tables_view saved.now) dir names.items more
        × (lines.new.items ≡ lines.old.items ++ more)) }
{
    for shown in names {
        lines.push(line_of(saved, dir, shown))?;
    }
    Ok(())
}

// The line of a shown name.
fn line_of(saved: &Saved, dir: Id, shown: ShownName) -> Line
    requires fits { FitsImage saved.now }
    requires visible { IsVisibleBy saved.now shown.target }
    ensures dir { result.dir ≡ dir }
    ensures shown { result.shown ≡ shown }
    ensures object { TellsObject (tables_view saved.now) result }
{
    let file = visible(saved, shown.target);
    Line {
        dir,
        kind: file.kind,
        conflict: file.is_conflict(),
        shown,
    }
}
