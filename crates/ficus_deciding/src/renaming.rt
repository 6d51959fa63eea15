ghost use Rattle.std.specs.Prelude.{◌↔◌, IsTrue, IfOk, OnErr};
ghost use Rattle.ficus_durable_state.specs.Saved.{FitsImage};
ghost use Rattle.ficus_path.specs.Path.{IsEntry, IsNew};
ghost use Rattle.ficus_commands.specs.declared.change.Change.TheVariants.{Mv};
ghost use Rattle.ficus_rules.specs.Change.{ChangeAnswer};
ghost use Rattle.ficus_rules.specs.View.{IsDirectoryIn, IsWithinIn};
ghost use Rattle.ficus_deciding.specs.View.{tables_view, IsVisibleBy};

use crate::names::named_entries;
use crate::new_name::new_name;
use crate::walk::{is_directory, last_name, places_of};
use ficus_durable_state::Saved;
use ficus_ids::{Id, Listed, Memory, Refusal};
use ficus_model::Op;
use ficus_path::Path;
use ficus_reach::below;
use std::alloc::Global;

/// A new path for the object at a path, in place of this name.
pub fn rename(alloc: Global, saved: &Saved, from: &Path, path: &Path) -> Result<Op, Refusal>
    requires fits { FitsImage saved.now }
    requires entry { IsEntry from.now }
    requires new { IsNew path.now }
    ensures { ChangeAnswer (tables_view saved.now) (Mv from.now path.now) result }
{
    let places = places_of(saved, from, path)?;
    let found = places.found;
    let dir = places.dir;
    if is_within(alloc, saved, found.object, dir)? {
        return Err(Refusal::IntoSelf);
    }
    let name = new_name(saved, dir, path)?;
    let old = last_name(from);
    let entries = named_entries(saved, found.dir, old, found.object)?;
    Ok(Op::Move {
        entries: Listed::of(entries),
        dir,
        name,
        target: found.object,
    })
}

/// Whether the object is a directory, and the other is it or lies below it.
pub(crate) fn is_within(alloc: Global, saved: &Saved, object: Id, other: Id) -> Result<bool, Memory>
    requires fits { FitsImage saved.now }
    requires visible { IsVisibleBy saved.now object }
    ensures within { IfOk result (λ within. IsTrue within ↔ IsWithinIn (tables_view saved.now) object other) }
    ensures memory { OnErr result (IsDirectoryIn (tables_view saved.now) object) }
{
    if !is_directory(saved, object) {
        return Ok(false);
    }
    below(alloc, &saved.entries, object, other)
}
