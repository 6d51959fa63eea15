// Images that are written out, and all that differ from them in a byte or in their length.
use crate::variants::{Grammar, OtherByte, changed, reads_variants};
use ficus_durable_state::Saved;
use ficus_formats::Reader;
use ficus_ids::{ATTIC, Id, Members, Memory, ROOT};
use ficus_image::{ImageFault, decode_image, encode_image};
use std::alloc::Global;
use std::test::Fail;

// The fresh image of replica 1 of 2, with the default limits.
const FRESH: [u8; 38] = [
    70, 73, 67, 50, 1, 2, 0, 1, 134, 160, 0, 64, 0, 0, 0, 0, 0, 1, 0, 0, 0, 0, 0, 0, 0, 0, 0, 0, 0,
    0, 0, 0, 0, 0, 0, 0, 0, 0,
];

// The image of the same replica after `1 mkdir /a`.
const DIRECTORY: [u8; 71] = [
    70, 73, 67, 50, 1, 2, 0, 1, 134, 160, 0, 64, 0, 0, 0, 0, 0, 2, 0, 0, 0, 0, 0, 0, 0, 0, 0, 0, 0,
    1, 0, 0, 0, 1, 1, 0, 0, 0, 1, 0, 0, 0, 0, 0, 1, 97, 1, 0, 0, 0, 1, 0, 0, 0, 0, 1, 1, 0, 0, 0,
    1, 0, 0, 0, 0, 0, 0, 0, 0, 0, 0,
];

// After `1 mkdir /a` and `1 mkdir /b`, with the two entries exchanged.
const EXCHANGED: [u8; 104] = [
    70, 73, 67, 50, 1, 2, 0, 1, 134, 160, 0, 64, 0, 0, 0, 0, 0, 3, 0, 0, 0, 0, 0, 0, 0, 0, 0, 0, 0,
    2, 0, 0, 0, 2, 1, 0, 0, 0, 2, 0, 0, 0, 0, 0, 1, 98, 1, 0, 0, 0, 2, 0, 1, 0, 0, 0, 1, 0, 0, 0,
    0, 0, 1, 97, 1, 0, 0, 0, 1, 0, 0, 0, 0, 2, 1, 0, 0, 0, 1, 0, 0, 0, 0, 0, 0, 0, 0, 0, 0, 1, 0,
    0, 0, 2, 0, 0, 0, 0, 0, 0, 0, 0, 0, 0,
];

// The fresh image with a byte more.
const LONGER: [u8; 39] = [
    70, 73, 67, 50, 1, 2, 0, 1, 134, 160, 0, 64, 0, 0, 0, 0, 0, 1, 0, 0, 0, 0, 0, 0, 0, 0, 0, 0, 0,
    0, 0, 0, 0, 0, 0, 0, 0, 0, 0,
];

// After `1 create /a plain` and a write of one byte, by a replica that may write one byte.
const WRITTEN: [u8; 82] = [
    70, 73, 67, 50, 1, 2, 0, 1, 134, 160, 0, 0, 0, 1, 0, 0, 0, 3, 0, 0, 0, 1, 0, 0, 0, 0, 0, 0, 0,
    2, 0, 0, 0, 1, 1, 0, 0, 0, 1, 0, 0, 0, 0, 0, 1, 97, 1, 0, 0, 0, 1, 0, 0, 0, 0, 1, 1, 0, 0, 0,
    1, 1, 1, 0, 0, 0, 2, 0, 0, 0, 0, 0, 1, 120, 0, 0, 0, 0, 0, 0, 0, 0,
];

// After `1 symlink /l "a"`, by a replica with the default limits.
const LINK: [u8; 82] = [
    70, 73, 67, 50, 1, 2, 0, 1, 134, 160, 0, 64, 0, 0, 0, 0, 0, 2, 0, 0, 0, 1, 0, 0, 0, 0, 0, 0, 0,
    1, 0, 0, 0, 1, 1, 0, 0, 0, 1, 0, 0, 0, 0, 0, 1, 108, 1, 0, 0, 0, 1, 0, 0, 0, 0, 1, 1, 0, 0, 0,
    1, 5, 1, 0, 0, 0, 1, 0, 0, 0, 0, 0, 1, 97, 0, 0, 0, 0, 0, 0, 0, 0,
];

// The byte that tells version 1.
const FIRST_VERSION: OtherByte = OtherByte { place: 3, byte: 49 };

// It stays an image: of another member, which may have made more; with the greatest generation; with fewer bytes used;
// with an entry of a number that was used; with a count of its own that is lower; with any count of the other's, in the
// version and in the cover; with a cover of what it has made.
const STILL: [OtherByte; 8] = [
    OtherByte { place: 4, byte: 2 },
    OtherByte {
        place: 22,
        byte: 127,
    },
    OtherByte { place: 21, byte: 0 },
    OtherByte { place: 38, byte: 2 },
    OtherByte { place: 66, byte: 1 },
    OtherByte { place: 70, byte: 9 },
    OtherByte { place: 81, byte: 9 },
    OtherByte { place: 77, byte: 2 },
];

// It is none any more: a generation above the greatest; a version that the next update makes; more bytes used than it
// may write; an entry that the next update makes; a version and a cover of updates that it hasn't made.
const NO_MORE: [OtherByte; 6] = [
    OtherByte {
        place: 22,
        byte: 128,
    },
    OtherByte { place: 17, byte: 2 },
    OtherByte { place: 21, byte: 2 },
    OtherByte { place: 38, byte: 3 },
    OtherByte { place: 66, byte: 3 },
    OtherByte { place: 77, byte: 3 },
];

/// What stands in front of the tables, as far as it says which tables there may be.
#[derive(Drop)]
struct Front {
    me: u8,
    members: Members,
    next: u32,
}

impl Front {
    // Whether a member may have issued it, and this one has if it is its own.
    fn is_issued(&self, id: Id) -> bool {
        self.members.has(id.replica)
            && (1..=100_000).contains(&id.number)
            && (id.replica != self.me || id.number < self.next)
    }
}

fn read_front(rest: &mut Reader<'_>) -> Option<Front> {
    let magic = rest.front(4)?;
    let me = rest.byte().ok()?;
    let members = Members::new(rest.byte().ok()?)?;
    let ids = rest.number32().ok()?;
    let bytes = rest.number32().ok()?;
    let next = rest.number32().ok()?;
    let used = rest.number32().ok()?;
    let generation = rest.number64().ok()?;
    let fits = (magic == b"FIC1".as_slice() || magic == b"FIC2".as_slice())
        && (1..=members.count()).contains(&me)
        && (1..=100_000).contains(&ids)
        && bytes <= 4_194_304
        && (1..=ids + 1).contains(&next)
        && used <= bytes
        && generation <= 9_223_372_036_854_775_807;
    fits.then_some(Front { me, members, next })
}

fn is_name(bytes: &[u8]) -> bool {
    (1..=64).contains(&bytes.len())
        && bytes.iter().all(|byte| !b"\0/#".contains(byte))
        && bytes != b".".as_slice()
        && bytes != b"..".as_slice()
}

// Whether two sets of members follow, of which the first isn't empty.
fn has_marks(rest: &mut Reader<'_>, members: Members) -> bool {
    match (rest.byte(), rest.byte()) {
        (Ok(one), Ok(two)) => one != 0 && u16::from(one | two) >> members.count() == 0,
        _ => false,
    }
}

// Where an entry lies, and what it names.
fn read_entry(rest: &mut Reader<'_>, front: &Front) -> Option<(Id, Id)> {
    let id = rest.id().ok()?;
    let dir = rest.id().ok()?;
    let name = rest.short_string().ok()?;
    let target = rest.id().ok()?;
    let may_stand = match rest.byte().ok()? {
        0 => dir != ATTIC,
        1 => has_marks(rest, front.members),
        _ => false,
    };
    let fits = front.is_issued(id) && is_name(name) && front.is_issued(target);
    (may_stand && fits).then_some((dir, target))
}

// The identifier of a directory: its kind, its count of versions and its cover are zeros.
fn read_directory(rest: &mut Reader<'_>, front: &Front) -> Option<Id> {
    let id = rest.id().ok()?;
    let zeros = rest.front(2 + 4 * usize::from(front.members.count()))?;
    (front.is_issued(id) && zeros.iter().all(|byte| *byte == 0)).then_some(id)
}

// One entry at most.
fn read_entries(rest: &mut Reader<'_>, front: &Front) -> Option<Option<(Id, Id)>> {
    match rest.number32().ok()? {
        0 => Some(None),
        1 => Some(Some(read_entry(rest, front)?)),
        _ => None,
    }
}

// One directory at most.
fn read_directories(rest: &mut Reader<'_>, front: &Front) -> Option<Option<Id>> {
    match rest.number32().ok()? {
        0 => Some(None),
        1 => Some(Some(read_directory(rest, front)?)),
        _ => None,
    }
}

// Whether the entry stands beside the directory, or there is none.
fn stands(entry: Option<(Id, Id)>, directory: Option<Id>) -> bool {
    match entry {
        Some((dir, target)) => {
            directory == Some(target) && (dir == target || dir == ROOT || dir == ATTIC)
        }
        None => true,
    }
}

// Whether the bytes are an image of one directory and one entry at most, read off the grammar.
fn is_image(bytes: &[u8]) -> Option<bool> {
    let mut rest = Reader::new(bytes);
    let front = read_front(&mut rest)?;
    let entry = read_entries(&mut rest, &front)?;
    let directory = read_directories(&mut rest, &front)?;
    Some(stands(entry, directory) && rest.is_empty())
}

/// Images, of any number of members.
#[derive(Drop)]
struct Images;

impl Grammar for Images {
    fn reads_exactly(&self, alloc: Global, bytes: &[u8]) -> Result<bool, Memory> {
        let is_image = is_image(bytes) == Some(true);
        Ok(match spelled_again(alloc, bytes)? {
            Some(again) => is_image && is_version_2_of(&again, bytes),
            None => !is_image,
        })
    }
}

// What spells what is read of the bytes, where they are an image.
fn spelled_again(alloc: Global, bytes: &[u8]) -> Result<Option<Vec<u8>>, Memory> {
    match decode_image(alloc, bytes) {
        Ok(saved) => Ok(Some(encode_image(alloc, &saved)?)),
        Err(ImageFault::NotImage) => Ok(None),
        Err(ImageFault::Memory) => Err(Memory),
    }
}

// Whether an image is of version 2, and else the same as these bytes.
fn is_version_2_of(image: &[u8], bytes: &[u8]) -> bool {
    image.starts_with(b"FIC2") && image.get(4..) == bytes.get(4..)
}

// Whether the bytes are an image, which spells what is read.
fn stays_so(alloc: Global, bytes: &[u8]) -> Result<bool, Memory> {
    Ok(spelled_again(alloc, bytes)?.is_some_and(|again| again.as_slice() == bytes))
}

// Whether each of the changes leaves an image where a byte was written, or none of them does, as said.
fn are_images(alloc: Global, changes: &[OtherByte], said: bool) -> Result<bool, Memory> {
    for change in changes {
        let bytes = changed(alloc, &WRITTEN, *change)?;
        if stays_so(alloc, &bytes)? != said {
            return Ok(false);
        }
    }
    Ok(true)
}

#[test]
fn images_are_those_of_the_grammar(rt: HostRuntime) -> Result<(), Fail> {
    let images: [&[u8]; 4] = [&FRESH, &DIRECTORY, &WRITTEN, &LINK];
    for (place, image) in images.iter().enumerate() {
        assert!(rt; stays_so(rt.alloc(), image)?, "{place}");
    }
    assert!(rt; reads_variants(&Images, rt.alloc(), &FRESH)?);
    assert!(rt; reads_variants(&Images, rt.alloc(), &DIRECTORY)?);
    Ok(())
}

// Whether the bytes are refused.
fn is_refused(alloc: Global, bytes: &[u8]) -> bool {
    matches!(decode_image(alloc, bytes), Err(ImageFault::NotImage))
}

#[test]
fn other_bytes_are_no_image(rt: HostRuntime) -> Result<(), Fail> {
    let refused: [&[u8]; 3] = [&FRESH[..37], &LONGER, &EXCHANGED];
    for bytes in refused {
        assert!(rt; is_refused(rt.alloc(), bytes));
    }
    assert!(rt; are_images(rt.alloc(), &STILL, true)?);
    assert!(rt; are_images(rt.alloc(), &NO_MORE, false)?);
    Ok(())
}

// Whether it is what the replica saves that has written a byte.
fn is_written(saved: &Saved) -> bool {
    saved.me == 1
        && saved.members.count() == 2
        && saved.ids == 100_000
        && saved.bytes == 1
        && saved.next == 3
        && saved.used == 1
        && saved.generation == 2
        && saved.entries.len() == 1
        && saved.files.len() == 1
}

// Whether an image of version 1 gives what is spelled with these bytes in version 2.
fn is_read_in_version_1(alloc: Global, bytes: &[u8]) -> Result<bool, Memory> {
    let earlier = changed(alloc, bytes, FIRST_VERSION)?;
    Ok(spelled_again(alloc, &earlier)?.is_some_and(|again| again.as_slice() == bytes))
}

#[test]
fn version_1_is_read_where_there_is_no_link(rt: HostRuntime) -> Result<(), Fail> {
    let images: [&[u8]; 3] = [&FRESH, &DIRECTORY, &WRITTEN];
    for (place, image) in images.iter().enumerate() {
        assert!(rt; is_read_in_version_1(rt.alloc(), image)?, "{place}");
    }
    assert!(rt; is_refused(rt.alloc(), &changed(rt.alloc(), &LINK, FIRST_VERSION)?));
    Ok(())
}

#[test]
fn an_image_gives_what_was_saved(rt: HostRuntime) -> Result<(), Fail> {
    assert!(rt; decode_image(rt.alloc(), &WRITTEN).is_ok_and(|saved| is_written(&saved)));
    Ok(())
}
