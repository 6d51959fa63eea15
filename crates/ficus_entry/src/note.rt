ghost use Rattle.std.specs.Prelude.{◌≡◌, ◌++◌, [], ◌∷◌, IfOk, OnOk, map};
ghost use Rattle.std.specs.List.{filter};
ghost use Rattle.ficus_index.specs.Place.{AddsRow, TakesRow};
ghost use Rattle.ficus_entry.specs.Kill.{is_live};
ghost use Rattle.ficus_entry.specs.Place.{note_of, ReplacesNote};

use crate::{Entry, SharedEntry};
use ficus_ids::Memory;
use ficus_index::{Index, Note, Place, digest};
use ficus_table::InOrder;
use std::alloc::Global;

impl Entry {
    /// What the index notes of the entry unless it is removed: its directory, and there the digest of its name.
    pub(crate) fn note(&self) -> Note
        ensures { result ≡ note_of self.now }
    {
        Note {
            place: Place {
                dir: self.dir,
                rank: digest(&self.name),
            },
            id: self.id,
        }
    }
}

/// What the index notes of the entries.
pub(crate) fn notes(alloc: Global, entries: &InOrder<'_, SharedEntry>) -> Result<Vec<Note>, Memory>
    ensures { IfOk result (λ notes. notes.items ≡ map note_of (filter is_live entries.now)) }
{
    let mut notes = Vec::with_capacity(alloc, entries.len())?;
    for index in 0..entries.len() {
        push_note(&mut notes, entries.at(index))?;
    }
    Ok(notes)
}

// Puts what the index notes of the entry behind the others.
fn push_note(notes: &mut Vec<Note>, entry: &Entry) -> Result<(), Memory>
    ensures { OnOk result (notes.new.items ≡ notes.old.items ++ map note_of (filter is_live (entry.now ∷ []))) }
{
    if entry.is_live() {
        notes.push(entry.note())?;
    }
    Ok(())
}

/// The index with what it notes of the entry.
pub(crate) fn noting(alloc: Global, index: &Index, entry: &Entry) -> Result<Index, Memory>
    ensures { IfOk result (AddsRow is_live note_of index.now entry.now) }
{
    if entry.is_live() {
        index.with(alloc, entry.note())
    } else {
        index.copy()
    }
}

/// The index without what it notes of the entry.
pub(crate) fn forgetting(alloc: Global, index: &Index, entry: &Entry) -> Result<Index, Memory>
    ensures { IfOk result (TakesRow is_live note_of index.now entry.now) }
{
    if entry.is_live() {
        index.without(alloc, entry.note())
    } else {
        index.copy()
    }
}

/// The index with what it notes of the entry in place of what it notes of another one.
pub(crate) fn renoted(
    alloc: Global,
    index: &Index,
    was: &Entry,
    entry: &Entry,
) -> Result<Index, Memory>
    ensures { IfOk result (ReplacesNote index.now was.now entry.now) }
{
    let others = forgetting(alloc, index, was)?;
    noting(alloc, &others, entry)
}
