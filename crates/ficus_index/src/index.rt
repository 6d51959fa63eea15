ghost use Rattle.std.specs.Prelude.{◌≡◌, ◌<◌, [], ◌∷◌, length, slice_get, IfOk, IfSome, IfNone, Contains, IsPermutation};
ghost use Rattle.ficus_index.specs.Place.{AreOrdered, IsSpan, IsNoteAt, TakesOne};

use crate::place::Before;
use crate::{Note, Place};
use ficus_ids::{Id, Memory};
use ficus_persistent::PersistentList;
use std::alloc::Global;
use std::marker::Model;

/// Notes. Contracts see them as a list in the order of places. A copy shares all with them, and a change takes time
/// for a logarithm of them alone.
#[derive(Drop)]
pub struct Index {
    notes: PersistentList<Note>,
}

impl Model for Index {
    ghost use Rattle.std.specs.Prelude.{List};
    ghost use Rattle.ficus_index.specs.Place.{AreOrdered};
    ghost use Rattle.ficus_index.specs.declared.place.Note.{Note as NoteValue};

    ghost Value = { List NoteValue };

    ghost view = { λ index. index.notes };

    ghost invariant = { λ index. AreOrdered index.notes };
}

/// Positions in an index, from the start up to the end.
#[derive(Clone, Copy)]
pub struct Span {
    pub start: usize,
    pub end: usize,
}

impl Index {
    /// No notes. Takes no memory.
    pub fn new() -> Index
        ensures { result ≡ [] }
    {
        Index {
            notes: PersistentList::new(),
        }
    }

    /// An index with these notes, which shares its nodes with this one. No node is copied.
    pub fn copy(&self) -> Result<Index, Memory>
        ensures { IfOk result (λ index. index ≡ self.now) }
    {
        let notes = self.notes.copy()?;
        Ok(Index { notes })
    }

    /// The identifier in the note at a position, which is below the count of notes.
    pub fn id_at(&self, position: usize) -> Id
        requires { position < length self.now }
        ensures { IsNoteAt self.now result position }
    {
        self.notes.at(position).id
    }

    /// The positions of all notes from one place up to another.
    pub fn span(&self, from: Place, to: Place) -> Span
        ensures { IsSpan self.now from to result.start result.end }
    {
        let start = self.notes.partition_point(&Before { place: from });
        let end = self.notes.partition_point(&Before { place: to });
        Span { start, end }
    }

    /// The notes and this one.
    pub fn with(&self, alloc: Global, note: Note) -> Result<Index, Memory>
        ensures { IfOk result (λ more. IsPermutation (note ∷ self.now) more) }
    {
        let position = self.notes.partition_point(&Before { place: note.place });
        let notes = self.notes.insert(alloc, position, note)?;
        Ok(Index { notes })
    }

    /// The notes without one that equals this one, or the same notes where none does.
    pub fn without(&self, alloc: Global, note: Note) -> Result<Index, Memory>
        ensures { IfOk result (λ fewer. TakesOne self.now note fewer) }
    {
        match self.position(note) {
            Some(position) => {
                let notes = self.notes.remove(alloc, position)?;
                Ok(Index { notes })
            }
            None => self.copy(),
        }
    }

    /// An index of these notes, in nodes of the least height.
    pub fn of(alloc: Global, notes: Vec<Note>) -> Result<Index, Memory>
        ensures { IfOk result (λ index. IsPermutation notes.items index) }
    {
        let mut notes = notes;
        sort(&mut notes);
        let notes = PersistentList::of(alloc, &notes)?;
        Ok(Index { notes })
    }

    // The first position at which a note equals this one.
    fn position(&self, note: Note) -> Option<usize>
        ensures some { IfSome result (λ position. slice_get self.now position ≡ Some note) }
        ensures none { IfNone result (Contains self.now note → ⊥) }
    {
        let first = self.notes.partition_point(&Before { place: note.place });
        for position in first..self.notes.len() {
            let other = *self.notes.at(position);
            if other == note {
                return Some(position);
            }
            if note.place.is_before(other.place) {
                return None;
            }
        }
        None
    }
}

// Puts notes into the order of their places.
fn sort(notes: &mut Vec<Note>)
    ensures ordered { AreOrdered notes.new.items }
    ensures same { IsPermutation notes.old.items notes.new.items }
{
    notes.sort_unstable_by_key(|note| note.place.order());
}
