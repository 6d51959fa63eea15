// What is written to a disk in memory since the last sync, a crash may undo.
use crate::steps::{Step, done, holds};
use ficus_disk::{Disk, MemDisk};
use ficus_ids::Memory;
use std::alloc::Global;
use std::test::Fail;

/// What is written over `abcdef`, which is synced: ranges, each by its place.
const WRITTEN: [&[(u8, &[u8])]; 9] = [
    &[],
    &[(6, b"gh")],
    &[(6, b"")],
    &[(2, b"X")],
    &[(4, b"WXYZ")],
    &[(4, b"X"), (1, b"Y")],
    &[(1, b"X"), (4, b"YZ")],
    &[(2, b"XY"), (1, b"1234"), (0, b"ABCDEFGH")],
    &[(6, b"gh"), (7, b"X"), (0, b"Y"), (3, b"Z")],
];

// Whether the bytes are written there, if the disk reaches up to it.
fn writes<D: Disk>(disk: &mut D, at: u8, bytes: &[u8]) -> Result<bool, Memory> {
    let from = u64::from(at);
    disk.reserve(from + bytes.len() as u64)?;
    match disk.size() {
        Ok(size) if from <= size => Ok(disk.write(from, bytes).is_ok()),
        _ => Ok(false),
    }
}

// Whether these writes are undone.
fn undoes(disk: &mut MemDisk, ranges: &[(u8, &[u8])]) -> Result<bool, Memory> {
    let is_synced = done(disk, &[Step::Write(b"abcdef"), Step::Sync])? == 2;
    disk.arm(9, 0);
    for (at, bytes) in ranges {
        if !writes(disk, *at, bytes)? {
            return Ok(false);
        }
    }
    Ok(is_synced && disk.again().is_ok() && holds(disk, b"abcdef"))
}

// Whether they are undone, and once more behind that.
fn undoes_twice(alloc: Global, ranges: &[(u8, &[u8])]) -> Result<bool, Memory> {
    let mut disk = MemDisk::new(alloc);
    Ok(undoes(&mut disk, ranges)? && undoes(&mut disk, ranges)?)
}

#[test]
fn what_was_not_synced_is_undone(rt: HostRuntime) -> Result<(), Fail> {
    for (row, ranges) in WRITTEN.iter().enumerate() {
        assert!(rt; undoes_twice(rt.alloc(), ranges)?, "row {row}");
    }
    Ok(())
}
