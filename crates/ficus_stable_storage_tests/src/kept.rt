// Bytes that stand on the disks, and what is opened of them.
use crate::records::{ASK, COLLECT, DISCARD, INSIDE, LINK, MAKE};
use crate::saves::told;
use ficus_disk::{Disk, MemDisk, Pair, fresh_pair};
use ficus_ids::Refusal;
use ficus_journal::Journal;
use ficus_keeper::{Keep, StoreFault};
use ficus_slot::read_all;
use ficus_stable_storage::Stable;
use ficus_two_slots::TwoSlot;
use std::alloc::Global;
use std::test::Fail;

/// A disk that holds these bytes.
pub(crate) fn disk_of(alloc: Global, bytes: &[u8]) -> Result<MemDisk, Refusal> {
    let mut disk = MemDisk::new(alloc);
    disk.reserve(bytes.len() as u64)?;
    if disk.write(0, bytes).is_err() || disk.sync().is_err() {
        return Err(Refusal::Store);
    }
    Ok(disk)
}

// The fresh image of replica 1 of 2, in version 1 and in version 2.
const FRESH: &[u8] = b"FIC1\x01\x02\0\x01\x86\xa0\0\x40\0\0\
    \0\0\0\x01\0\0\0\0\0\0\0\0\0\0\0\0\
    \0\0\0\0\0\0\0\0";

const FRESH_2: &[u8] = b"FIC2\x01\x02\0\x01\x86\xa0\0\x40\0\0\
    \0\0\0\x01\0\0\0\0\0\0\0\0\0\0\0\0\
    \0\0\0\0\0\0\0\0";

// The first without its last byte.
const SHORT: &[u8] = b"FIC1\x01\x02\0\x01\x86\xa0\0\x40\0\0\
    \0\0\0\x01\0\0\0\0\0\0\0\0\0\0\0\0\
    \0\0\0\0\0\0\0";

// The image after `1 mkdir /a`.
const FIRST: &[u8] = b"FIC1\x01\x02\0\x01\x86\xa0\0\x40\0\0\
    \0\0\0\x02\0\0\0\0\0\0\0\0\0\0\0\x01\
    \0\0\0\x01\x01\0\0\0\x01\0\0\0\0\0\x01a\x01\0\0\0\x01\0\
    \0\0\0\x01\x01\0\0\0\x01\0\0\0\0\0\0\0\0\0\0";

// The generation that is opened.
fn opens<K: Keep + Drop, D: Disk>(alloc: Global, disks: &mut Pair<D>) -> Result<u64, StoreFault> {
    Ok(Stable::<K>::open(alloc, disks)?.saved.generation)
}

// The generation that is opened once these bytes are made an image on two disks that were found empty. None where they
// weren't.
fn opens_with<K: Keep + Drop>(alloc: Global, image: &[u8]) -> Option<Result<u64, StoreFault>> {
    let mut disks = fresh_pair(alloc);
    if K::make(alloc, &mut disks, image).is_err() {
        return None;
    }
    Some(opens::<K, MemDisk>(alloc, &mut disks))
}

// Whether that is opened with either keeper.
fn opens_as(alloc: Global, image: &[u8], opened: Result<u64, StoreFault>) -> bool {
    opens_with::<TwoSlot>(alloc, image) == Some(opened)
        && opens_with::<Journal>(alloc, image) == Some(opened)
}

/// Images, and what is opened where they are made.
const IMAGES: &[(&[u8], Result<u64, StoreFault>)] = &[
    (FRESH, Ok(0)),
    (FRESH_2, Ok(0)),
    (SHORT, Err(StoreFault::NoImage)),
    (b"", Err(StoreFault::NoImage)),
    (FIRST, Err(StoreFault::NoImage)),
];

#[test]
fn only_an_image_of_its_generation_is_opened(rt: HostRuntime) -> Result<(), Fail> {
    let alloc = rt.alloc();
    let nothing = Err(StoreFault::NoImage);
    assert!(rt; opens::<TwoSlot, MemDisk>(alloc, &mut fresh_pair(alloc)) == nothing);
    assert!(rt; opens::<Journal, MemDisk>(alloc, &mut fresh_pair(alloc)) == nothing);
    for (place, (image, opened)) in IMAGES.iter().enumerate() {
        assert!(rt; opens_as(alloc, image, *opened), "{place}");
    }
    Ok(())
}

// Records that are in force behind the fresh image, and what is opened then: nothing where one is no record, or doesn't
// fit what those before it make.
const BEHIND: &[(&[&[u8]], Result<u64, StoreFault>)] = &[
    (&[], Ok(0)),
    (&[MAKE], Ok(1)),
    (&[LINK], Ok(1)),
    (&[MAKE, INSIDE, ASK, COLLECT], Ok(4)),
    (&[b""], Err(StoreFault::NoImage)),
    (&[b"\x0d"], Err(StoreFault::NoImage)),
    (&[b"\x0a\x0a"], Err(StoreFault::NoImage)),
    (&[b"\x01\0\0\0\0\0\x01a"], Err(StoreFault::NoImage)),
    (&[INSIDE], Err(StoreFault::NoImage)),
    (&[INSIDE, MAKE], Err(StoreFault::NoImage)),
    (&[MAKE, DISCARD], Err(StoreFault::NoImage)),
    (&[ASK, b"\x0b", ASK], Err(StoreFault::NoImage)),
];

// Saves these bytes behind what the disks hold, as a keeper of records does; whether that was done.
fn puts<K: Keep + Drop, D: Disk>(
    alloc: Global,
    disks: &mut Pair<D>,
    body: &[u8],
) -> Result<bool, StoreFault> {
    let (mut keeper, opened) = K::open(alloc, disks)?;
    if opened.generation > 1 << 62 {
        return Ok(false);
    }
    let generation = opened.generation + opened.records.items().len() as u64 + 1;
    keeper.prepare(disks, body.len() as u64)?;
    Ok(keeper.commit(disks, generation, body).is_ok())
}

/// The fresh image in version 1, with these records behind it.
pub(crate) fn log_of(alloc: Global, bodies: &[&[u8]]) -> Result<Pair<MemDisk>, Refusal> {
    let mut disks = fresh_pair(alloc);
    if Journal::make(alloc, &mut disks, FRESH).is_err() {
        return Err(Refusal::Store);
    }
    for body in bodies {
        if !puts::<Journal, MemDisk>(alloc, &mut disks, body).map_err(told)? {
            return Err(Refusal::Store);
        }
    }
    Ok(disks)
}

// What is opened of the fresh image with these records behind it.
fn opens_behind(alloc: Global, bodies: &[&[u8]]) -> Result<Result<u64, StoreFault>, Refusal> {
    let mut disks = log_of(alloc, bodies)?;
    Ok(opens::<Journal, MemDisk>(alloc, &mut disks))
}

#[test]
fn a_record_in_force_is_one_that_fits(rt: HostRuntime) -> Result<(), Fail> {
    for (place, (bodies, opened)) in BEHIND.iter().enumerate() {
        let found = opens_behind(rt.alloc(), bodies)?;
        assert!(rt; found == *opened, "{place}");
    }
    Ok(())
}

// What is opened of these bytes.
fn opens_bytes(alloc: Global, bytes: &[u8]) -> Result<u64, Refusal> {
    let mut disks = Pair {
        a: disk_of(alloc, bytes)?,
        b: MemDisk::new(alloc),
    };
    opens::<Journal, MemDisk>(alloc, &mut disks).map_err(told)
}

// The first length at which something else is opened than the records that end there.
fn first_torn(alloc: Global, bytes: &[u8]) -> Result<Option<usize>, Refusal> {
    for length in 56..=bytes.len() {
        // The slot has 56 bytes, and each record 22 more, with its next gate.
        if opens_bytes(alloc, &bytes[..length])? != (length as u64 - 56) / 22 {
            return Ok(Some(length));
        }
    }
    Ok(None)
}

#[test]
fn a_torn_record_is_passed_over(rt: HostRuntime) -> Result<(), Fail> {
    let mut disks = log_of(rt.alloc(), &[MAKE, INSIDE])?;
    let bytes = read_all(rt.alloc(), &mut disks.a).map_err(told)?;
    assert_eq!(rt; bytes.len(), 100);
    let length = first_torn(rt.alloc(), &bytes)?;
    assert!(rt; length.is_none(), "{length:?} bytes");
    Ok(())
}
