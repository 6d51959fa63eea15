// Disks that record the calls which change them.
use crate::steps::{Step, done, holds};
use ficus_disk::{Disk, TraceDisk};
use ficus_ids::Memory;
use std::alloc::Global;
use std::test::Fail;

const STEPS: [Step; 6] = [
    Step::Write(b"abc"),
    Step::Sync,
    Step::Write(b""),
    Step::Again,
    Step::Write(b"12345"),
    Step::Sync,
];

/// For how many calls and bytes there is room, how many of the steps are done, and what the disk then holds.
#[derive(Drop)]
struct Room {
    calls: u32,
    bytes: u32,
    done: usize,
    held: &'static [u8],
}

const ROOMS: [Room; 8] = [
    Room {
        calls: 0,
        bytes: 9,
        done: 0,
        held: b"",
    },
    Room {
        calls: 9,
        bytes: 2,
        done: 0,
        held: b"",
    },
    Room {
        calls: 1,
        bytes: 3,
        done: 1,
        held: b"abc",
    },
    Room {
        calls: 3,
        bytes: 3,
        done: 3,
        held: b"abc",
    },
    Room {
        calls: 9,
        bytes: 7,
        done: 4,
        held: b"abc",
    },
    Room {
        calls: 4,
        bytes: 8,
        done: 4,
        held: b"abc",
    },
    Room {
        calls: 5,
        bytes: 8,
        done: 5,
        held: b"12345",
    },
    Room {
        calls: 6,
        bytes: 8,
        done: 6,
        held: b"12345",
    },
];

// Whether so many of the steps are done, and the disk then holds this, also where it is opened again.
fn does_within(alloc: Global, room: &Room) -> Result<bool, Memory> {
    let mut disk = TraceDisk::new(alloc, room.calls, room.bytes)?;
    let count = done(&mut disk, &STEPS)?;
    let is_held = holds(&mut disk, room.held);
    let again = disk.again();
    let has_room = room.done < room.calls as usize;
    Ok(count == room.done && is_held && again.is_ok() == has_room && holds(&mut disk, room.held))
}

#[test]
fn a_record_takes_what_it_has_room_for(rt: HostRuntime) -> Result<(), Fail> {
    for (row, room) in ROOMS.iter().enumerate() {
        assert!(rt; does_within(rt.alloc(), room)?, "row {row}");
    }
    Ok(())
}
