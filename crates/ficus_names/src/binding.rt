ghost use Rattle.std.specs.Prelude.{◌≡◌, ◌↔◌, ◌<◌, ℕ, List, length, slice_get, Contains, IfOk, IfSome, IfNone, IsTrue};
ghost use Rattle.std.specs.List.Sorted.{IsStrictlySortedBy};
ghost use Rattle.ficus_model.specs.ShownNames.{HasOther};
ghost use Rattle.ficus_names.specs.Binding.{Binds, binding_cmp};
ghost use Rattle.ficus_names.specs.Binds.{BindsIn, IsLiveIn};
ghost use Rattle.ficus_entry.specs.declared.entry.Entry.{Entry as EntryValue};
ghost use Rattle.ficus_entry.specs.Entry.{IsRising};
ghost use Rattle.ficus_names.specs.declared.binding.Binding.{Binding as Bound};
ghost use Rattle.ficus_entry.specs.declared.entry.State.TheVariants.{Live};
ghost use Rattle.ficus_ids.specs.declared.id.Id.{Id as IdValue};

use ficus_entry::{Entries, Entry};
use ficus_ids::{Id, Memory, Name};
use std::alloc::Global;

/// A name with an object to which it leads.
#[derive(Drop, PartialEq, Eq, PartialOrd, Ord)]
pub struct Binding {
    pub name: Name,
    pub target: Id,
}

/// The names that live entries of a directory have, with the objects to which they lead. A pair that several
/// entries have comes several times.
pub fn bindings_in(alloc: Global, entries: &Entries, dir: Id) -> Result<Vec<Binding>, Memory>
    ensures { IfOk result (λ bindings. (name : List ℕ) (target : IdValue) →
        Binds bindings.items name target ↔ BindsIn entries.now dir name target) }
{
    let ids = entries.noted_live_inside(dir)?;
    let mut bindings = Vec::new(alloc);
    for id in &ids {
        if let Some(entry) = live_in(entries, *id, dir) {
            bindings.push(Binding {
                name: entry.name.copy()?,
                target: entry.target,
            })?;
        }
    }
    Ok(bindings)
}

// The entry with the identifier, if it is live and lies in the directory.
fn live_in(entries: &Entries, id: Id, dir: Id) -> Option<&Entry>
    ensures rising { IsRising entries.now }
    ensures some { IfSome result (λ entry. IsLiveIn entries.now id dir entry.now) }
    ensures none { IfNone result ((entry : EntryValue) → IsLiveIn entries.now id dir entry → ⊥) }
{
    match entries.get(id) {
        Some(entry) if is_live_in(entry, dir) => Some(entry),
        _ => None,
    }
}

// Whether the entry is live and lies in the directory.
fn is_live_in(entry: &Entry, dir: Id) -> bool
    ensures { IsTrue result ↔ ((entry.now.state ≡ Live) × (entry.now.dir ≡ dir)) }
{
    entry.is_live() && entry.dir == dir
}

/// Whether the name of the binding at the index leads to another object too.
pub fn is_shared(bindings: &[Binding], index: usize) -> bool
    requires rising { IsStrictlySortedBy binding_cmp bindings.now }
    requires within { index < length bindings.now }
    ensures { IfSome (slice_get bindings.now index) (λ binding.
        IsTrue result ↔ HasOther (Binds bindings.now) binding.name binding.target) }
{
    let binding = &bindings[index];
    if index > 0 && have_same_name(&bindings[index - 1], binding) {
        return true;
    }
    index + 1 < bindings.len() && have_same_name(&bindings[index + 1], binding)
}

fn have_same_name(a: &Binding, b: &Binding) -> bool
    ensures { IsTrue result ↔ (a.now.name ≡ b.now.name) }
{
    a.name == b.name
}
