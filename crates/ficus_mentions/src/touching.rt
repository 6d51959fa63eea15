ghost use Rattle.std.specs.Prelude.{◌≡◌, ◌↔◌, ◌∷◌, ◌++◌, [], length, List, All, Contains, IsTrue, IfOk};
ghost use Rattle.ficus_ids.specs.Rising.{IsRisingBy};
ghost use Rattle.ficus_ids.specs.declared.id.Id.{Id as IdValue};
ghost use Rattle.ficus_mentions.specs.Touched.{touched_by, HasMark, AreMarked};

use ficus_entry::Entries;
use ficus_ids::{Id, Memory};
use ficus_table::are_many;
use std::alloc::Global;

/// Those of the rising identifiers that an entry, live or removed, names or lies in, rising. It takes one walk along
/// the entries; but only a logarithm of them for each identifier, where these are few beside them
/// ([`are_many`](ficus_table::are_many) says how few) and each object is named by the entry that was made with it.
pub fn touched(alloc: Global, entries: &Entries, ids: &[Id]) -> Result<Vec<Id>, Memory>
    requires { IsRisingBy (λ id. id) ids.now }
    ensures rising { IfOk result (λ kept. IsRisingBy (λ id. id) kept.items) }
    ensures touched { IfOk result (λ kept. (id : IdValue) → Contains kept.items id ↔
        (Contains ids.now id × Contains (touched_by entries.now) id)) }
{
    if are_few_with_own_entries(entries, ids) {
        return Ok(ids.to_vec(alloc)?);
    }
    let marks = marks(alloc, entries, ids)?;
    marked(alloc, ids, &marks)
}

// Whether the objects are few, and each has an entry of its own.
fn are_few_with_own_entries(entries: &Entries, ids: &[Id]) -> bool
    ensures { IsTrue result → All (Contains (touched_by entries.now)) ids.now }
{
    !are_many(ids.len(), entries.len()) && have_own_entries(entries, ids)
}

// Whether each of the objects has an entry of its own.
fn have_own_entries(entries: &Entries, ids: &[Id]) -> bool
    ensures { IsTrue result → All (Contains (touched_by entries.now)) ids.now }
{
    for id in ids {
        if !has_own_entry(entries, *id) {
            return false;
        }
    }
    true
}

// Whether the object has an entry of its own: one with the object's identifier, as the two that are made together have,
// that names it.
fn has_own_entry(entries: &Entries, id: Id) -> bool
    ensures { IsTrue result → Contains (touched_by entries.now) id }
{
    match entries.get(id) {
        Some(entry) => entry.target == id,
        None => false,
    }
}

// Of each of the identifiers, whether an entry names it or lies in it.
fn marks(alloc: Global, entries: &Entries, ids: &[Id]) -> Result<Vec<bool>, Memory>
    requires { IsRisingBy (λ id. id) ids.now }
    ensures { IfOk result (λ marks. AreMarked (touched_by entries.now) ids.now marks.items) }
{
    let in_order = entries.in_order()?;
    let mut marks = vec![in alloc; false; ids.len()]?;
    for index in 0..in_order.len() {
        let entry = in_order.at(index);
        mark(&mut marks, ids, entry.target);
        mark(&mut marks, ids, entry.dir);
    }
    Ok(marks)
}

// Marks the identifier, if it is one of these.
fn mark(marks: &mut Vec<bool>, ids: &[Id], id: Id)
    requires rising { IsRisingBy (λ other. other) ids.now }
    requires lengths { length marks.old.items ≡ length ids.now }
    ensures { (others : List IdValue) → AreMarked others ids.now marks.old.items →
        AreMarked (others ++ id ∷ []) ids.now marks.new.items }
{
    if let Ok(index) = ids.binary_search(&id) {
        marks[index] = true;
    }
}

// Those of the identifiers that have a mark.
fn marked(alloc: Global, ids: &[Id], marks: &[bool]) -> Result<Vec<Id>, Memory>
    requires rising { IsRisingBy (λ id. id) ids.now }
    requires lengths { length marks.now ≡ length ids.now }
    ensures rising { IfOk result (λ kept. IsRisingBy (λ id. id) kept.items) }
    ensures marked { IfOk result (λ kept. (id : IdValue) → Contains kept.items id ↔ HasMark ids.now marks.now id) }
{
    let mut kept = Vec::with_capacity(alloc, ids.len())?;
    for index in 0..ids.len() {
        if marks[index] {
            kept.push(ids[index])?;
        }
    }
    Ok(kept)
}

/// Whether the identifier is one of these, which rise strictly. It takes time for a logarithm of them alone.
pub fn is_among(ids: &[Id], id: Id) -> bool
    requires { IsRisingBy (λ other. other) ids.now }
    ensures { IsTrue result ↔ Contains ids.now id }
{
    ids.binary_search(&id).is_ok()
}
