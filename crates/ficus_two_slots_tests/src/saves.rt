// Saves, and what is kept after them.
ghost use Rattle.std.specs.Prelude.{◌<◌};

use ficus_disk::{Disk, MemDisk, Pair, TraceDisk};
use ficus_keeper::{Keep, StoreFault, reopen};
use ficus_slot::read_all;
use ficus_two_slots::TwoSlot;
use std::alloc::Global;
use std::test::Fail;

// Opens the disks and saves the bytes as the next generation; whether that was done.
fn saves<K: Keep + Drop, D: Disk>(
    alloc: Global,
    disks: &mut Pair<D>,
    bytes: &[u8],
) -> Result<bool, StoreFault> {
    let (mut keeper, opened) = K::open(alloc, disks)?;
    if opened.generation == u64::MAX || !opened.records.items().is_empty() {
        return Ok(false);
    }
    keeper.prepare(disks, bytes.len() as u64)?;
    Ok(keeper.commit(disks, opened.generation + 1, bytes).is_ok())
}

// The same with both disks armed behind the preparations.
fn saves_armed<K: Keep + Drop, D: Disk>(
    alloc: Global,
    disks: &mut Pair<D>,
    bytes: &[u8],
    calls: u32,
    pick: u8,
) -> Result<bool, StoreFault>
    requires { pick < 4 }
{
    let (mut keeper, opened) = K::open(alloc, disks)?;
    if opened.generation == u64::MAX || !opened.records.items().is_empty() {
        return Ok(false);
    }
    keeper.prepare(disks, bytes.len() as u64)?;
    disks.a.arm(calls, pick);
    disks.b.arm(calls, pick);
    Ok(keeper.commit(disks, opened.generation + 1, bytes).is_ok())
}

// Whether these bytes are kept with this generation, once the disks are opened again.
fn keeps<K: Keep + Drop, D: Disk>(
    alloc: Global,
    disks: &mut Pair<D>,
    generation: u64,
    bytes: &[u8],
) -> Result<bool, StoreFault> {
    let (_keeper, opened) = reopen::<K, D>(alloc, disks)?;
    Ok(opened.generation == generation && opened.image.items() == bytes)
}

/// How many calls pass, and which generation each pick then finds.
const FOUND: [(u32, [u64; 4]); 8] = [
    (0, [0, 0, 0, 0]),
    (1, [0, 0, 0, 0]),
    (2, [0, 0, 0, 0]),
    (3, [0, 0, 0, 0]),
    (4, [0, 1, 1, 0]),
    (5, [0, 1, 1, 0]),
    (6, [1, 1, 1, 1]),
    (7, [1, 1, 1, 1]),
];

const IMAGES: [&[u8]; 2] = [b"old", b"the new one"];

// Whether a save with such a fuse leaves this generation.
fn leaves(alloc: Global, calls: u32, pick: u8, generation: u64) -> Result<bool, StoreFault> {
    if pick > 3 || generation > 1 {
        return Ok(false);
    }
    let mut disks = Pair {
        a: MemDisk::new(alloc),
        b: MemDisk::new(alloc),
    };
    if TwoSlot::make(alloc, &mut disks, IMAGES[0]).is_err() {
        return Ok(false);
    }
    let is_saved = saves_armed::<TwoSlot, MemDisk>(alloc, &mut disks, IMAGES[1], calls, pick)?;
    let image = IMAGES[generation as usize];
    Ok(is_saved == (calls >= 6) && keeps::<TwoSlot, MemDisk>(alloc, &mut disks, generation, image)?)
}

#[test]
fn a_stopped_save_is_found_by_its_pick(rt: HostRuntime) -> Result<(), Fail> {
    for (calls, generations) in FOUND {
        for (pick, generation) in generations.iter().enumerate() {
            let is = leaves(rt.alloc(), calls, pick as u8, *generation);
            assert!(rt; is == Ok(true), "{calls} calls, pick {pick}");
        }
    }
    Ok(())
}

// Whether these are the bytes of the disk.
fn holds<D: Disk>(alloc: Global, disk: &mut D, bytes: &[u8]) -> Result<bool, StoreFault> {
    let held = read_all(alloc, disk)?;
    Ok(held.as_slice() == bytes)
}

/// The bytes of each disk after a save of each of the images: gate, generation, length, body and tail.
const SLOTS: [&[u8]; 2] = [
    b"\x01\0\0\0\0\0\0\0\0\0\0\0\0\0\0\0\x03old\0",
    b"\x01\0\0\0\0\0\0\0\x01\0\0\0\0\0\0\0\x0bthe new one\0",
];

#[test]
fn each_disk_is_one_slot(rt: HostRuntime) -> Result<(), Fail> {
    let alloc = rt.alloc();
    let mut disks = Pair {
        a: MemDisk::new(alloc),
        b: MemDisk::new(alloc),
    };
    assert!(rt; TwoSlot::make(alloc, &mut disks, IMAGES[0]).is_ok());
    assert!(rt; holds(alloc, &mut disks.b, b"") == Ok(true));
    assert!(rt; saves::<TwoSlot, MemDisk>(alloc, &mut disks, IMAGES[1]) == Ok(true));
    assert!(rt; holds(alloc, &mut disks.a, SLOTS[0]) == Ok(true));
    assert!(rt; holds(alloc, &mut disks.b, SLOTS[1]) == Ok(true));
    Ok(())
}

#[test]
fn each_commit_is_found(rt: HostRuntime) -> Result<(), Fail> {
    let alloc = rt.alloc();
    let mut disks = Pair {
        a: TraceDisk::new(alloc, 64, 1024)?,
        b: TraceDisk::new(alloc, 64, 1024)?,
    };
    assert!(rt; TwoSlot::make(alloc, &mut disks, b"").is_ok());
    let saved: [&[u8]; 3] = [b"first", b"the second", b"third"];
    for (place, bytes) in saved.iter().enumerate() {
        assert!(rt;
            saves::<TwoSlot, TraceDisk>(alloc, &mut disks, bytes) == Ok(true),
            "{place}"
        );
        let generation = place as u64 + 1;
        assert!(rt;
            keeps::<TwoSlot, TraceDisk>(alloc, &mut disks, generation, bytes) == Ok(true),
            "{place}"
        );
    }
    Ok(())
}
