ghost use Rattle.std.specs.Prelude.{◌≡◌, [], Ok, nat_lt};
ghost use Rattle.ficus_index.specs.Place.{order_of};

use ficus_ids::{Id, Memory};
use ficus_persistent::{Cut, Item, Spelled};

/// Where an identifier is noted: by directory, and there by rank.
#[derive(Clone, Copy, PartialEq, Eq)]
pub struct Place {
    pub dir: Id,
    pub rank: u32,
}

/// That an identifier is noted at a place.
#[derive(Clone, Copy, PartialEq, Eq)]
pub struct Note {
    pub place: Place,
    pub id: Id,
}

impl Place {
    /// The place as a number: by replica, then by number, then by rank.
    pub(crate) fn order(self) -> u128
        ensures { result ≡ order_of self }
    {
        let dir = u128::from(self.dir.replica) * (1 << 32) + u128::from(self.dir.number);
        dir * (1 << 64) + u128::from(self.rank)
    }

    pub(crate) fn is_before(self, other: Place) -> bool
        ensures { result ≡ nat_lt (order_of self) (order_of other) }
    {
        self.order() < other.order()
    }
}

impl Item for Note {
    fn copied(&self) -> Result<Note, Memory>
        ensures { result ≡ Ok self.now }
    {
        Ok(*self)
    }
}

// An index is never spelled: it follows from the entries.
impl Spelled for Note {
    ghost spell = { λ _. [] };

    fn put(&self, _out: &mut Vec<u8>) -> Result<(), Memory> {
        Ok(())
    }

    fn spelled_len(&self) -> usize {
        0
    }
}

/// The cut in front of a place.
#[derive(Clone, Copy)]
pub(crate) struct Before {
    pub(crate) place: Place,
}

impl Cut<Note> for Before {
    ghost is_before = { λ cut note. nat_lt (order_of note.place) (order_of cut.place) };

    fn is_before(&self, note: &Note) -> bool {
        note.place.is_before(self.place)
    }
}
