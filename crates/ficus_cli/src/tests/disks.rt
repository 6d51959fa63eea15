// Pairs of disks in memory, one for each of eight replicas.
use ficus_disk::{FailDisk, MemDisk, Pair, TraceDisk};
use ficus_ids::Memory;
use std::alloc::{AllocError, Global};

/// Empty disks with fuses.
pub(crate) fn fused_pairs(alloc: Global) -> Result<Vec<Pair<MemDisk>>, AllocError> {
    let mut pairs = Vec::new(alloc);
    for _ in 0..8u8 {
        pairs.push(Pair {
            a: MemDisk::new(alloc),
            b: MemDisk::new(alloc),
        })?;
    }
    Ok(pairs)
}

/// Empty disks without fuses.
pub(crate) fn pairs(alloc: Global) -> Result<Vec<Pair<FailDisk>>, AllocError> {
    failing_pairs(alloc, 16, 0)
}

/// Eight pairs of disks, of which this one of the sixteen, counted from 0, fails at this call, counted from 1.
pub(crate) fn failing_pairs(
    alloc: Global,
    disk: u8,
    call: u32,
) -> Result<Vec<Pair<FailDisk>>, AllocError> {
    let mut pairs = Vec::new(alloc);
    for pair in 0..8u8 {
        pairs.push(Pair {
            a: failing_disk(alloc, call, disk == 2 * pair)?,
            b: failing_disk(alloc, call, disk == 2 * pair + 1)?,
        })?;
    }
    Ok(pairs)
}

fn failing_disk(alloc: Global, call: u32, fails: bool) -> Result<FailDisk, AllocError> {
    let mut calls = Vec::new(alloc);
    if fails {
        calls.push(call)?;
    }
    Ok(FailDisk::new(alloc, calls))
}

/// Empty disks that record what is done with them, and so tell what a kill at any moment left.
pub(crate) fn recording_pairs(alloc: Global) -> Result<Vec<Pair<TraceDisk>>, Memory> {
    let mut pairs = Vec::new(alloc);
    for _ in 0..8u8 {
        pairs.push(Pair {
            a: TraceDisk::new(alloc, 256, 16_384)?,
            b: TraceDisk::new(alloc, 256, 16_384)?,
        })?;
    }
    Ok(pairs)
}
