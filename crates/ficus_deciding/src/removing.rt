ghost use Rattle.std.specs.Prelude.{◌≡◌, ◌↔◌, false, IsTrue, IfOk, OnErr};
ghost use Rattle.ficus_durable_state.specs.Saved.{FitsImage};
ghost use Rattle.ficus_path.specs.Path.{IsEntry};
ghost use Rattle.ficus_commands.specs.declared.change.Change.TheVariants.{Rm};
ghost use Rattle.ficus_rules.specs.Change.{ChangeAnswer};
ghost use Rattle.ficus_rules.specs.Named.{HasOtherNameIn};
ghost use Rattle.ficus_rules.specs.Remove.{IsFullIn};
ghost use Rattle.ficus_deciding.specs.View.{tables_view, IsVisibleBy};

use crate::limits::is_spent;
use crate::names::{has_other_name, named_entries};
use crate::walk::{Found, entry_at, is_directory, last_name};
use ficus_durable_state::Saved;
use ficus_ids::{Id, Listed, Memory, Name, Refusal};
use ficus_model::Op;
use ficus_path::Path;

/// The removal of the name at a path from its object.
pub fn remove(saved: &Saved, path: &Path) -> Result<Op, Refusal>
    requires fits { FitsImage saved.now }
    requires entry { IsEntry path.now }
    ensures { ChangeAnswer (tables_view saved.now) (Rm path.now) result }
{
    let found = entry_at(saved, path)?;
    let name = last_name(path);
    if !may_lose(saved, found, name)? {
        return Err(Refusal::NotEmpty);
    }
    if is_spent(saved) {
        return Err(Refusal::Spent);
    }
    let entries = named_entries(saved, found.dir, name, found.object)?;
    Ok(Op::Remove {
        entries: Listed::of(entries),
        target: found.object,
    })
}

// Whether the object may lose this name: a directory with something in it has to keep another one.
fn may_lose(saved: &Saved, found: Found, name: &Name) -> Result<bool, Memory>
    requires fits { FitsImage saved.now }
    requires visible { IsVisibleBy saved.now found.object }
    ensures may { IfOk result (λ may. IsTrue may → IsFullIn (tables_view saved.now) found.object
        → HasOtherNameIn (tables_view saved.now) found.dir name.now found.object) }
    ensures may_not { IfOk result (λ may. may ≡ false → IsFullIn (tables_view saved.now) found.object
        × (HasOtherNameIn (tables_view saved.now) found.dir name.now found.object → ⊥)) }
    ensures memory { OnErr result (IsFullIn (tables_view saved.now) found.object) }
{
    if !is_full(saved, found.object) {
        return Ok(true);
    }
    has_other_name(saved, found.dir, name, found.object)
}

// Whether the object is a directory in which a live entry lies.
fn is_full(saved: &Saved, object: Id) -> bool
    requires fits { FitsImage saved.now }
    requires visible { IsVisibleBy saved.now object }
    ensures { IsTrue result ↔ IsFullIn (tables_view saved.now) object }
{
    is_directory(saved, object) && saved.entries.live_inside(object)
}
