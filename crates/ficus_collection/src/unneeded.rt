ghost use Rattle.std.specs.Prelude.{◌↔◌, Contains, IsTrue, IfOk};
ghost use Rattle.ficus_ids.specs.Rising.{IsRisingBy};
ghost use Rattle.ficus_ids.specs.declared.id.Id.{Id as IdValue};
ghost use Rattle.ficus_file.specs.Files.{Holds};
ghost use Rattle.ficus_file.specs.declared.orphan.Orphan.{Orphan as OrphanValue};
ghost use Rattle.ficus_collection.specs.Chosen.{HoldsOrphan, AreUnneeded};

use ficus_entry::Entries;
use ficus_file::{Files, Orphan};
use ficus_ids::{Id, Memory};
use ficus_mentions::{is_among, touched};
use std::alloc::Global;

/// The identifiers of the files that no entry names or lies in and that are none of the orphans.
pub(crate) fn unneeded(
    alloc: Global,
    entries: &Entries,
    files: &Files,
    orphans: &[Orphan],
) -> Result<Vec<Id>, Memory>
    requires { IsRisingBy (λ (orphan : OrphanValue). orphan.id) orphans.now }
    ensures { IfOk result (λ ids. AreUnneeded entries.now files.now orphans.now ids.items) }
{
    let loose = loose(alloc, files, orphans)?;
    let touched = touched(alloc, entries, &loose)?;
    others(alloc, &loose, &touched)
}

// The identifiers of the files that are none of the orphans, rising.
fn loose(alloc: Global, files: &Files, orphans: &[Orphan]) -> Result<Vec<Id>, Memory>
    requires { IsRisingBy (λ (orphan : OrphanValue). orphan.id) orphans.now }
    ensures rising { IfOk result (λ ids. IsRisingBy (λ id. id) ids.items) }
    ensures loose { IfOk result (λ ids. (id : IdValue) → Contains ids.items id ↔
        (Holds files.now id × (HoldsOrphan orphans.now id → ⊥))) }
{
    let in_order = files.in_order()?;
    let mut ids = Vec::new(alloc);
    for index in 0..in_order.len() {
        let id = in_order.at(index).id;
        if !is_orphan(orphans, id) {
            ids.push(id)?;
        }
    }
    Ok(ids)
}

// Whether the identifier is that of one of the orphans.
fn is_orphan(orphans: &[Orphan], id: Id) -> bool
    requires { IsRisingBy (λ (orphan : OrphanValue). orphan.id) orphans.now }
    ensures { IsTrue result ↔ HoldsOrphan orphans.now id }
{
    orphans
        .binary_search_by_key(&id, |orphan| orphan.id)
        .is_ok()
}

// Those of the identifiers that are none of these others.
fn others(alloc: Global, ids: &[Id], others: &[Id]) -> Result<Vec<Id>, Memory>
    requires ids { IsRisingBy (λ id. id) ids.now }
    requires others { IsRisingBy (λ id. id) others.now }
    ensures { IfOk result (λ left. (id : IdValue) → Contains left.items id ↔
        (Contains ids.now id × (Contains others.now id → ⊥))) }
{
    let mut left = Vec::new(alloc);
    for id in ids {
        if !is_among(others, *id) {
            left.push(*id)?;
        }
    }
    Ok(left)
}
