ghost use Rattle.std.specs.Prelude.{◌↔◌, IsTrue, IfOk};
ghost use Rattle.ficus_rules.specs.Named.{AreNamedIn, HasOtherNameIn};
ghost use Rattle.ficus_deciding.specs.View.{tables_view};

use ficus_durable_state::Saved;
use ficus_ids::{Id, Memory, Name};

/// All live entries of the directory that have the name and lead to the object, rising.
pub(crate) fn named_entries(
    saved: &Saved,
    dir: Id,
    name: &Name,
    target: Id,
) -> Result<Vec<Id>, Memory>
    ensures { IfOk result (λ ids. AreNamedIn (tables_view saved.now) dir name.now target ids.items) }
{
    saved.entries.names_of(dir, name, target)
}

/// Whether a live entry leads to the object from another directory or under another name.
pub(crate) fn has_other_name(
    saved: &Saved,
    dir: Id,
    name: &Name,
    target: Id,
) -> Result<bool, Memory>
    ensures { IfOk result (λ has. IsTrue has ↔ HasOtherNameIn (tables_view saved.now) dir name.now target) }
{
    saved.entries.has_other_name(dir, name, target)
}
