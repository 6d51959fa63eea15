ghost use Rattle.std.specs.Prelude.{◌≡◌, ◌↔◌, Contains, IfOk, IsTrue};
ghost use Rattle.ficus_durable_state.specs.Saved.{FitsImage};
ghost use Rattle.ficus_ids.specs.declared.id.Id.{Id as IdValue};
ghost use Rattle.ficus_rules.specs.Alike.{AreAlike};
ghost use Rattle.ficus_deciding.specs.Alike.{ShowSameAt};
ghost use Rattle.ficus_deciding.specs.View.{tables_view};

use crate::shown::visible_ids;
use ficus_durable_state::Saved;
use ficus_file::Files;
use ficus_ids::{Id, Memory};
use ficus_names::same_names;
use std::alloc::Global;

/// Whether the two show the same names, and of each visible object the same kind and versions, and have the same
/// orphans.
pub fn alike(alloc: Global, one: &Saved, other: &Saved) -> Result<bool, Memory>
    requires fits { FitsImage one.now }
    requires fits_too { FitsImage other.now }
    ensures { IfOk result (λ alike. IsTrue alike ↔ AreAlike (tables_view one.now) (tables_view other.now)) }
{
    if !same_names(alloc, &one.entries, &other.entries)? {
        return Ok(false);
    }
    let ids = visible_ids(alloc, one)?;
    let others = visible_ids(alloc, other)?;
    Ok(show_alike(&one.files, &other.files, &ids, &others))
}

// Whether both show the same objects, and have each of them as one of the same kind with the same versions.
fn show_alike(files: &Files, others: &Files, ids: &[Id], other_ids: &[Id]) -> bool
    ensures { IsTrue result ↔ ((ids.now ≡ other_ids.now)
        × ((id : IdValue) → Contains ids.now id → ShowSameAt files.now others.now id)) }
{
    are_same(ids, other_ids) && show_same(files, others, ids)
}

fn are_same(ids: &[Id], others: &[Id]) -> bool
    ensures { IsTrue result ↔ (ids.now ≡ others.now) }
{
    ids == others
}

// Whether both have each of the objects as one of the same kind with the same versions.
fn show_same(files: &Files, others: &Files, ids: &[Id]) -> bool
    ensures { IsTrue result ↔ ((id : IdValue) → Contains ids.now id → ShowSameAt files.now others.now id) }
{
    for id in ids {
        if !shows_same(files, others, *id) {
            return false;
        }
    }
    true
}

fn shows_same(files: &Files, others: &Files, id: Id) -> bool
    ensures { IsTrue result ↔ ShowSameAt files.now others.now id }
{
    match (files.get(id), others.get(id)) {
        (Some(file), Some(other)) => file.shows_same_as(other),
        _ => false,
    }
}
