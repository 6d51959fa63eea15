use crate::saves::{Kept, Stop, ends_with, kept_on, saves, saves_framed};
use ficus_disk::{Disk, MemDisk, Pair, fresh_pair};
use ficus_journal::Journal;
use ficus_keeper::{Keep, StoreFault, Wants};
use ficus_slot::read_all;
use ficus_two_slots::TwoSlot;
use std::alloc::Global;
use std::test::Fail;

/// How many saves are made one after the other: two images and more.
const SAVES: u8 = 140;

// Whether this save, and all before it, are kept as an image and records behind it.
fn keeps_each(alloc: Global, disks: &mut Pair<MemDisk>, number: u8) -> Result<bool, StoreFault> {
    let is_saved = saves::<Journal, MemDisk>(alloc, disks, &[number], None)?;
    let records = (number % 65) as usize;
    let kept = Kept {
        image: (number - number % 65) as u64,
        records,
        wants: if records == 64 {
            Wants::Image
        } else {
            Wants::Record
        },
    };
    Ok(
        is_saved
            && kept_on::<Journal, MemDisk>(alloc, disks)? == kept
            && ends_with::<Journal, MemDisk>(alloc, disks, &[number])?,
    )
}

#[test]
fn each_65th_save_is_an_image(rt: HostRuntime) -> Result<(), Fail> {
    let alloc = rt.alloc();
    let mut disks = fresh_pair(alloc);
    assert!(rt; Journal::make(alloc, &mut disks, b"").is_ok());
    for number in 1..=SAVES {
        assert!(rt;
            keeps_each(alloc, &mut disks, number) == Ok(true),
            "save {number}"
        );
    }
    Ok(())
}

// Whether both disks of two pairs hold the same bytes.
fn are_alike(
    alloc: Global,
    one: &mut Pair<MemDisk>,
    other: &mut Pair<MemDisk>,
) -> Result<bool, StoreFault> {
    Ok(
        read_all(alloc, &mut one.a)?.as_slice() == read_all(alloc, &mut other.a)?.as_slice()
            && read_all(alloc, &mut one.b)?.as_slice() == read_all(alloc, &mut other.b)?.as_slice(),
    )
}

#[test]
fn a_save_out_of_a_frame_leaves_the_same_bytes(rt: HostRuntime) -> Result<(), Fail> {
    // 64 records, an image and one more record, all out of one frame.
    let alloc = rt.alloc();
    let mut plain = fresh_pair(alloc);
    let mut lent = fresh_pair(alloc);
    let mut framed = Vec::new(alloc);
    assert!(rt; Journal::make(alloc, &mut plain, b"made").is_ok());
    assert!(rt; Journal::make(alloc, &mut lent, b"made").is_ok());
    for number in 1..=66 {
        let bytes = [number; 5];
        assert!(rt; saves::<Journal, MemDisk>(alloc, &mut plain, &bytes, None) == Ok(true));
        assert!(rt;
            saves_framed::<Journal, MemDisk>(alloc, &mut lent, &mut framed, &bytes) == Ok(true)
        );
        assert!(rt;
            are_alike(alloc, &mut plain, &mut lent) == Ok(true),
            "save {number}"
        );
    }
    Ok(())
}

/// How many calls pass, and whether each pick then finds a record.
const FOUND: [(&[u32], [bool; 4]); 3] = [
    (&[0, 1], [false, false, false, false]),
    (&[2, 3], [false, true, true, false]),
    (&[4, 5], [true, true, true, true]),
];

// Whether a record that is saved with such a fuse is found, or isn't, as said, and one more can be saved then.
fn leaves(alloc: Global, calls: u32, pick: u8, is_found: bool) -> Result<bool, StoreFault> {
    let mut disks = fresh_pair(alloc);
    if pick > 3 || Journal::make(alloc, &mut disks, b"image").is_err() {
        return Ok(false);
    }
    let stop = Some(Stop { calls, pick });
    let is_saved = saves::<Journal, MemDisk>(alloc, &mut disks, b"record", stop)?;
    let kept = kept_on::<Journal, MemDisk>(alloc, &mut disks)?;
    Ok(
        is_saved == (calls >= 4)
            && kept.records == is_found as usize
            && saves::<Journal, MemDisk>(alloc, &mut disks, b"next", None)?
            && kept_on::<Journal, MemDisk>(alloc, &mut disks)?.records == kept.records + 1,
    )
}

#[test]
fn a_stopped_record_is_found_by_its_pick(rt: HostRuntime) -> Result<(), Fail> {
    for (passed, found) in FOUND {
        for calls in passed {
            for (pick, is_found) in found.iter().enumerate() {
                let is = leaves(rt.alloc(), *calls, pick as u8, *is_found);
                assert!(rt; is == Ok(true), "{calls} calls, pick {pick}");
            }
        }
    }
    Ok(())
}

// A disk with these bytes.
fn disk_of(alloc: Global, bytes: &[u8]) -> Result<MemDisk, StoreFault> {
    let mut disk = MemDisk::new(alloc);
    disk.reserve(bytes.len() as u64)?;
    disk.write(0, bytes)?;
    disk.sync()?;
    Ok(disk)
}

// What is found where the disk `a` has so many bytes of these.
fn kept_in(alloc: Global, bytes: &[u8]) -> Result<Kept, StoreFault> {
    let mut disks = Pair {
        a: disk_of(alloc, bytes)?,
        b: MemDisk::new(alloc),
    };
    kept_on::<Journal, MemDisk>(alloc, &mut disks)
}

/// An image `i` of generation 0, and records `r` and `st` behind it.
const LOG: &[u8] = b"\x01\0\0\0\0\0\0\0\0\0\0\0\0\0\0\0\x01i\
\x01\0\0\0\0\0\0\0\x01\0\0\0\x01r\
\x01\0\0\0\0\0\0\0\x02\0\0\0\x02st\0";

#[test]
fn a_disk_is_a_slot_and_records(rt: HostRuntime) -> Result<(), Fail> {
    let alloc = rt.alloc();
    let mut disks = fresh_pair(alloc);
    assert!(rt; Journal::make(alloc, &mut disks, b"i").is_ok());
    assert!(rt; saves::<Journal, MemDisk>(alloc, &mut disks, b"r", None) == Ok(true));
    assert!(rt; saves::<Journal, MemDisk>(alloc, &mut disks, b"st", None) == Ok(true));
    let held = read_all(alloc, &mut disks.a);
    assert!(rt; held.is_ok_and(|bytes| bytes.as_slice() == LOG));
    Ok(())
}

#[test]
fn a_record_that_is_cut_short_is_passed_over(rt: HostRuntime) -> Result<(), Fail> {
    // Behind byte 33 the first record is whole, behind byte 48 the second, and a closed gate ends them.
    for length in 19..=LOG.len() {
        let records = (length >= 33) as usize + (length >= 48) as usize;
        let is_whole = length == 48;
        let wants = if is_whole {
            Wants::Record
        } else {
            Wants::Image
        };
        let kept = Kept {
            image: 0,
            records,
            wants,
        };
        let is = kept_in(rt.alloc(), &LOG[..length]);
        assert!(rt; is == Ok(kept), "{length} bytes");
    }
    Ok(())
}

#[test]
fn what_two_slots_left_has_no_record(rt: HostRuntime) -> Result<(), Fail> {
    let alloc = rt.alloc();
    let mut disks = fresh_pair(alloc);
    let none = Kept {
        image: 3,
        records: 0,
        wants: Wants::Record,
    };
    assert!(rt; TwoSlot::make(alloc, &mut disks, b"made").is_ok());
    let saved: [&[u8]; 3] = [b"first", b"the second", b"third"];
    for bytes in saved {
        assert!(rt; saves::<TwoSlot, MemDisk>(alloc, &mut disks, bytes, None) == Ok(true));
    }
    assert!(rt; kept_on::<Journal, MemDisk>(alloc, &mut disks) == Ok(none));
    assert!(rt; ends_with::<Journal, MemDisk>(alloc, &mut disks, b"third") == Ok(true));
    assert!(rt; saves::<Journal, MemDisk>(alloc, &mut disks, b"record", None) == Ok(true));
    assert!(rt;
        kept_on::<Journal, MemDisk>(alloc, &mut disks)
            == Ok(Kept {
                image: 3,
                records: 1,
                wants: Wants::Record
            })
    );
    Ok(())
}
