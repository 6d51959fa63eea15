// Disks of which listed calls fail.
use crate::steps::{Step, does};
use ficus_disk::{Disk, FailDisk};
use ficus_ids::Memory;
use std::alloc::Global;
use std::test::Fail;

/// Which calls fail, what five calls come to, and the size that is left: a size, a write of two bytes, a sync, a read
/// of none and an opening.
#[derive(Drop)]
struct Calls {
    fail: &'static [u32],
    done: [bool; 5],
    size: u64,
}

const CALLS: [Calls; 7] = [
    Calls {
        fail: &[],
        done: [true, true, true, true, true],
        size: 2,
    },
    Calls {
        fail: &[1],
        done: [false, true, true, true, true],
        size: 2,
    },
    Calls {
        fail: &[2],
        done: [true, false, true, true, true],
        size: 0,
    },
    Calls {
        fail: &[3],
        done: [true, true, false, true, true],
        size: 2,
    },
    Calls {
        fail: &[4],
        done: [true, true, true, false, true],
        size: 2,
    },
    Calls {
        fail: &[5],
        done: [true, true, true, true, false],
        size: 2,
    },
    Calls {
        fail: &[5, 1, 7, 3],
        done: [false, true, false, true, false],
        size: 2,
    },
];

// Whether the calls of a disk, of which these fail, come to that.
fn comes_to(alloc: Global, row: &Calls) -> Result<bool, Memory> {
    let fail = row.fail.to_vec(alloc)?;
    let mut disk = FailDisk::new(alloc, fail);
    let done = [
        disk.size().is_ok(),
        does(&mut disk, Step::Write(b"ab"))?.is_ok(),
        disk.sync().is_ok(),
        disk.read(0, &mut []).is_ok(),
        disk.again().is_ok(),
    ];
    Ok(done == row.done && disk.size() == Ok(row.size))
}

#[test]
fn listed_calls_fail_once_each(rt: HostRuntime) -> Result<(), Fail> {
    for (row, calls) in CALLS.iter().enumerate() {
        assert!(rt; comes_to(rt.alloc(), calls)?, "row {row}");
    }
    Ok(())
}

#[test]
fn a_disk_without_a_fuse_is_not_armed(rt: HostRuntime) -> Result<(), Fail> {
    let mut disk = FailDisk::new(rt.alloc(), Vec::new(rt.alloc()));
    disk.arm(0, 3);
    assert!(rt; !disk.fused());
    assert!(rt; does(&mut disk, Step::Write(b"ab"))?.is_ok());
    assert!(rt; disk.size() == Ok(2));
    Ok(())
}
