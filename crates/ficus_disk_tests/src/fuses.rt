// The fuse of a disk in memory: what it leaves, by the number of calls that pass and by the pick.
use crate::steps::{Step, does, done, holds};
use ficus_disk::{Disk, MemDisk};
use ficus_ids::Memory;
use std::alloc::Global;
use std::test::Fail;

const STEPS: [Step; 5] = [
    Step::Write(b"abcdef"),
    Step::Sync,
    Step::Write(b"XYZ"),
    Step::Sync,
    Step::Write(b"12345678"),
];

/// How many of the steps pass, and what each pick then leaves.
const LEFT: [(&[u32], [&[u8]; 4]); 3] = [
    (
        &[0, 1],
        [
            b"",
            b"abcdef",
            b"\x01\x01\x01\x01\x01\x01",
            b"abc\xff\xff\xff",
        ],
    ),
    (
        &[2, 3],
        [b"abcdef", b"XYZdef", b"\x01\x01\x01def", b"X\xff\xffdef"],
    ),
    (
        &[4, 5, 9],
        [
            b"XYZdef",
            b"12345678",
            b"\x01\x01\x01\x01\x01\x01\x01\x01",
            b"1234\xff\xff\xff\xff",
        ],
    ),
];

// Whether so many of the steps pass, the disk then answers no more, and `again` leaves this, to which more can be
// written.
fn leaves(alloc: Global, calls: u32, pick: u8, left: &[u8]) -> Result<bool, Memory> {
    if pick > 3 {
        return Ok(false);
    }
    let mut disk = MemDisk::new(alloc);
    disk.arm(calls, pick);
    let count = done(&mut disk, &STEPS)?;
    let is_stopped = calls < 5;
    let is_silent = disk.size().is_err() && disk.sync().is_err();
    Ok(
        count == 5.min(calls as usize)
            && is_silent == is_stopped
            && disk.again().is_ok()
            && holds(&mut disk, left)
            && done(&mut disk, &STEPS)? == 5,
    )
}

#[test]
fn a_fuse_leaves_what_its_pick_names(rt: HostRuntime) -> Result<(), Fail> {
    for (passed, images) in LEFT {
        for calls in passed {
            for (pick, image) in images.iter().enumerate() {
                let is = leaves(rt.alloc(), *calls, pick as u8, image)?;
                assert!(rt; is, "{calls} calls, pick {pick}");
            }
        }
    }
    Ok(())
}

/// What ranges that overlap leave where nothing was synced: a byte counts for the latest range alone.
const OVERLAPPING: [(u8, &[u8]); 4] = [
    (0, b""),
    (1, b"XYcdef"),
    (2, b"\x01\x01\x01\x01\x01\x01"),
    (3, b"X\xffc\xff\xff\xff"),
];

// Whether two writes over one another leave this.
fn overlap_leaves(alloc: Global, pick: u8, left: &[u8]) -> Result<bool, Memory> {
    if pick > 3 {
        return Ok(false);
    }
    let mut disk = MemDisk::new(alloc);
    disk.arm(2, pick);
    let steps = [Step::Write(b"abcdef"), Step::Write(b"XY")];
    Ok(done(&mut disk, &steps)? == 2 && disk.again().is_ok() && holds(&mut disk, left))
}

#[test]
fn the_latest_of_overlapping_ranges_counts(rt: HostRuntime) -> Result<(), Fail> {
    for (pick, left) in OVERLAPPING {
        assert!(rt; overlap_leaves(rt.alloc(), pick, left)?, "pick {pick}");
    }
    Ok(())
}

#[test]
fn a_disk_that_has_failed_stays_so(rt: HostRuntime) -> Result<(), Fail> {
    let mut disk = MemDisk::new(rt.alloc());
    assert!(rt; disk.fused());
    disk.arm(0, 0);
    assert!(rt; does(&mut disk, Step::Write(b"abc"))?.is_err());

    // Another number doesn't revive it, and what is written takes place. The pick is the later one.
    disk.arm(9, 2);
    assert!(rt; does(&mut disk, Step::Write(b"wxyz"))?.is_err());
    assert!(rt; disk.sync().is_err() && disk.size().is_err());
    assert!(rt; disk.again().is_ok() && holds(&mut disk, b"\x01\x01\x01\x01"));

    // What was never armed since is as it was written.
    assert!(rt; does(&mut disk, Step::Write(b"ab"))?.is_ok());
    assert!(rt; disk.again().is_ok() && holds(&mut disk, b"ab\x01\x01"));
    Ok(())
}
