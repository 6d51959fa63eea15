// Saves, and what is kept after them.
ghost use Rattle.std.specs.Prelude.{◌<◌, IfSome};

use ficus_disk::{Disk, Pair};
use ficus_keeper::{Keep, StoreFault, Wants, frame, reopen};
use ficus_slot::reserve_range;
use std::alloc::Global;

/// How many calls of the disks pass, and the pick of what they then are.
#[derive(Clone, Copy)]
pub(crate) struct Stop {
    pub(crate) calls: u32,
    pub(crate) pick: u8,
}

/// Opens the disks and saves the bytes as the next generation, with both disks armed behind the preparations where a
/// stop is asked; whether that was done.
pub(crate) fn saves<K: Keep + Drop, D: Disk>(
    alloc: Global,
    disks: &mut Pair<D>,
    bytes: &[u8],
    stop: Option<Stop>,
) -> Result<bool, StoreFault>
    requires { IfSome stop (λ s. s.pick < 4) }
{
    let (mut keeper, opened) = K::open(alloc, disks)?;
    if opened.generation > 1 << 62 {
        return Ok(false);
    }
    let generation = opened.generation + opened.records.items().len() as u64 + 1;
    keeper.prepare(disks, bytes.len() as u64)?;
    if let Some(Stop { calls, pick }) = stop {
        disks.a.arm(calls, pick);
        disks.b.arm(calls, pick);
    }
    Ok(keeper.commit(disks, generation, bytes).is_ok())
}

/// Opens the disks and saves the bytes as the next generation, out of a frame that is made of them.
pub(crate) fn saves_framed<K: Keep + Drop, D: Disk>(
    alloc: Global,
    disks: &mut Pair<D>,
    framed: &mut Vec<u8>,
    bytes: &[u8],
) -> Result<bool, StoreFault> {
    let (mut keeper, opened) = K::open(alloc, disks)?;
    if opened.generation > 1 << 62 {
        return Ok(false);
    }
    let generation = opened.generation + opened.records.items().len() as u64 + 1;
    reserve_range(framed, bytes.len() as u64)?;
    frame(framed, bytes);
    keeper.reserve(disks, bytes.len() as u64)?;
    Ok(keeper.commit_framed(disks, generation, framed).is_ok())
}

/// What is kept: the generation of the image, how many records stand behind it, and what is wanted next.
#[derive(Clone, Copy, PartialEq, Eq)]
pub(crate) struct Kept {
    pub(crate) image: u64,
    pub(crate) records: usize,
    pub(crate) wants: Wants,
}

/// What is kept once the disks are opened again.
pub(crate) fn kept_on<K: Keep + Drop, D: Disk>(
    alloc: Global,
    disks: &mut Pair<D>,
) -> Result<Kept, StoreFault> {
    let (keeper, opened) = reopen::<K, D>(alloc, disks)?;
    Ok(Kept {
        image: opened.generation,
        records: opened.records.items().len(),
        wants: keeper.wants(),
    })
}

/// Whether these bytes were saved last.
pub(crate) fn ends_with<K: Keep + Drop, D: Disk>(
    alloc: Global,
    disks: &mut Pair<D>,
    bytes: &[u8],
) -> Result<bool, StoreFault> {
    let (_keeper, opened) = reopen::<K, D>(alloc, disks)?;
    Ok(match opened.records.items() {
        [.., last] => last.items() == bytes,
        [] => opened.image.items() == bytes,
    })
}
