ghost use Rattle.std.specs.Prelude.{◌≡◌, ◌<◌, ◌==◌, ◌↔◌, length, slice_get, Some, IfOk, IfSome, OnOk, IsTrue};
ghost use Rattle.std.specs.Option.{option_copied};
ghost use Rattle.ficus_file.specs.Files.{AreFiles, HoldsUnder};
ghost use Rattle.ficus_merge_files.specs.News.{at_places, AreInside, AreNew, HasRow, IsKnown, Notes};

use ficus_file::{FileReplica, Files, FilesInOrder, SharedFile};
use ficus_ids::Memory;
use ficus_table::SideBySide;
use std::alloc::Global;
use std::marker::Model;

/// A file of theirs that mine don't hold as it is, and the one of mine with its identifier, if there is one.
#[derive(Clone, Copy)]
pub struct NewFile<'a> {
    pub mine: Option<&'a FileReplica>,
    pub theirs: &'a FileReplica,
    /// The row of theirs that holds the file, for mine to share, where theirs were made of rows.
    pub row: Option<&'a SharedFile>,
}

/// What of the files of a peer, theirs, is new to a replica, which has mine: those of theirs that mine don't hold as
/// they are. What both hold alike is passed by once, when this is made.
#[derive(Drop)]
pub struct News<'a> {
    mine: &'a Files,
    theirs: FilesInOrder<'a>,
    // Where among theirs those are that are new. There may be as many as objects, so of each no more is kept.
    places: Vec<u32>,
}

impl<'a> Model for News<'a> {
    ghost use Rattle.ficus_merge_files.specs.News.{Sides, at_places, AreNews};

    ghost Value = { Sides };

    ghost view = { λ n. record { mine = n.mine.now; theirs = n.theirs; new = at_places n.theirs n.places.items } };

    ghost invariant = { λ n. AreNews n.mine.now n.theirs n.places.items };
}

impl<'a> News<'a> {
    /// What is new, by one walk along the two lists.
    pub fn of(alloc: Global, mine: &'a Files, theirs: FilesInOrder<'a>) -> Result<News<'a>, Memory>
        requires { AreFiles theirs }
        ensures mine { IfOk result (λ news. news.mine ≡ mine.now) }
        ensures theirs { IfOk result (λ news. news.theirs ≡ theirs.entry) }
    {
        let my_files = mine.in_order()?;
        let places = places_of_new(alloc, &my_files, &theirs)?;
        Ok(News {
            mine,
            theirs,
            places,
        })
    }

    /// How many files of theirs are new.
    pub fn len(&self) -> usize
        ensures value { result ≡ length self.now.new }
        ensures mine { AreFiles self.now.mine }
        ensures theirs { AreFiles self.now.theirs }
        ensures new { AreNew self.now.mine self.now.theirs self.now.new }
    {
        self.places.len()
    }

    /// Whether nothing is new.
    pub fn is_empty(&self) -> bool
        ensures { result ≡ (length self.now.new == 0) }
    {
        self.len() == 0
    }

    /// The new file of theirs at a place in the order of identifiers, from 0, and the one of mine beside it, which is
    /// looked up. The place is below the length.
    pub fn at(&self, index: usize) -> NewFile<'a>
        requires { index < length self.now.new }
        ensures theirs { slice_get self.now.new index ≡ Some result.theirs.now }
        ensures mine { HoldsUnder self.now.mine result.theirs.now.id (option_copied result.mine) }
        ensures row { HasRow result }
    {
        let _count = self.len();
        let place = self.places[index] as usize;
        let theirs = self.theirs.at(place);
        NewFile {
            mine: self.mine.get(theirs.id),
            theirs,
            row: self.theirs.row(place),
        }
    }

    /// All of theirs, by their rows, where these are known.
    pub(crate) fn their_rows(&self) -> Option<&'a [SharedFile]>
        ensures { IfSome result (λ rows. rows.now ≡ self.now.theirs) }
    {
        self.theirs.all_rows()
    }

    /// All of mine.
    pub(crate) fn mine(&self) -> &'a Files
        ensures { result.now ≡ self.now.mine }
    {
        self.mine
    }
}

// Where among theirs what is new stands. There is room for all of theirs from the beginning, which costs nothing where
// it isn't filled: room that grew would leave half of what it had behind. Places that a `u32` can't count are want of
// memory, as more files than that would be.
fn places_of_new<'a>(
    alloc: Global,
    mine: &FilesInOrder<'a>,
    theirs: &FilesInOrder<'a>,
) -> Result<Vec<u32>, Memory>
    ensures new { IfOk result (λ places. AreNew mine.now theirs.now (at_places theirs.now places.items)) }
    ensures inside { IfOk result (λ places. AreInside theirs.now places.items) }
{
    let mut walk = SideBySide::of(mine, theirs);
    let mut places = Vec::with_capacity(alloc, theirs.len())?;
    let mut place: u32 = 0;
    while let Some(next) = walk.next_pair() {
        if let Some(file) = next.theirs {
            note(&mut places, place, next.mine, file)?;
            place = place.checked_add(1).ok_or(Memory)?;
        }
    }
    Ok(places)
}

// Puts the place of the file of theirs behind the others, unless mine hold it as it is.
fn note(
    places: &mut Vec<u32>,
    place: u32,
    mine: Option<&FileReplica>,
    theirs: &FileReplica,
) -> Result<(), Memory>
    ensures { OnOk result (Notes places.old.items places.new.items place mine.entry theirs.now) }
{
    if !is_known(mine, theirs) {
        places.push(place)?;
    }
    Ok(())
}

// Whether mine hold the file of theirs as it is.
fn is_known(mine: Option<&FileReplica>, theirs: &FileReplica) -> bool
    ensures { IsTrue result ↔ IsKnown mine.entry theirs.now }
{
    match mine {
        Some(file) => file.is_same_as(theirs),
        None => false,
    }
}
