ghost use Rattle.std.specs.Prelude.{◌≡◌, ◌↔◌, [], Contains, IsTrue, OnOk};
ghost use Rattle.ficus_ids.specs.Rising.{IsRisingBy};
ghost use Rattle.ficus_ids.specs.declared.id.Id.{Id as IdValue};
ghost use Rattle.ficus_entry.specs.Inside.{HoldsSuch, IsAsked};

use crate::{Entry, InOrder};
use ficus_ids::{Id, Memory};

/// What is asked of an entry, live or removed.
#[derive(Clone, Copy)]
pub(crate) enum Asked {
    /// That it lies in this directory.
    InDirectory(Id),
    /// That it leads to this object.
    ToObject(Id),
}

/// Puts the identifiers of the entries that are as is asked into an empty list.
pub(crate) fn note_asked(
    ids: &mut Vec<Id>,
    entries: &InOrder<'_>,
    asked: Asked,
) -> Result<(), Memory>
    requires { ids.old.items ≡ [] }
    ensures entries { OnOk result ((id : IdValue) →
        Contains ids.new.items id ↔ HoldsSuch (IsAsked asked) entries.now id) }
    ensures rising { OnOk result (IsRisingBy (λ (id : IdValue). id) ids.new.items) }
{
    for index in 0..entries.len() {
        let entry = entries.at(index);
        if is_asked(entry, asked) {
            ids.push(entry.id)?;
        }
    }
    Ok(())
}

fn is_asked(entry: &Entry, asked: Asked) -> bool
    ensures { IsTrue result ↔ IsAsked asked entry.now }
{
    match asked {
        Asked::InDirectory(dir) => entry.dir == dir,
        Asked::ToObject(object) => entry.target == object,
    }
}
