// Disks over a system that notes what is made and synced, and whose calls fail in turn.
use crate::calls::{Call, long_piece, takes};
use crate::system::System;
use ficus_file_disk::{FileDisk, System as Asked, SystemDisk};
use std::alloc::{AllocError, Global};
use std::test::Fail;

/// Calls that make a file, and what they give.
pub const MAKING: [Call; 10] = [
    Call::Size(Ok(0)),
    Call::Sync(Ok(())),
    Call::Again(Ok(())),
    Call::Write(0, b"ab", Ok(())),
    Call::Sync(Ok(())),
    Call::Write(2, b"cd", Ok(())),
    Call::Sync(Ok(())),
    Call::Again(Ok(())),
    Call::Read(1, Ok(*b"bcd")),
    Call::Size(Ok(4)),
];

/// Calls of another disk, which finds the file.
const FINDING: [Call; 3] = [Call::Size(Ok(4)), Call::Sync(Ok(())), Call::Again(Ok(()))];

/// Each folder that was missing, and the one above them, is synced once, with the first sync of the file; by the disk
/// that finds it, its own folder alone. `again` opens the file anew.
const NOTES: &[u8] = b"made vol
made vol/1
made vol/1/a
synced vol/1/a
opened vol/1
synced vol/1
opened vol
synced vol
opened .
synced .
synced vol/1/a
opened vol/1/a
synced vol/1/a
opened vol/1/a
synced vol/1/a
opened vol/1
synced vol/1
opened vol/1/a
synced vol/1/a
";

/// More calls of the system than these calls make.
pub const MOST: u32 = 64;

/// The call of the system whose failure is no fault: whether `vol/1` is there after all, once the system has said that
/// it can't be made before `vol` is.
const ASKED: u32 = 9;

// How often the call fails before it is answered, at most once. None where another answer comes.
fn failures<S: Asked + Drop>(call: Call, disk: &mut SystemDisk<S>) -> Option<u32> {
    let answered = call.made(disk);
    if answered == call {
        Some(0)
    } else if answered == call.failed() && call.made(disk) == call {
        Some(1)
    } else {
        None
    }
}

/// How many of the calls fail at first. None where another answer comes.
pub fn all_failures<S: Asked + Drop>(calls: &[Call], disk: &mut SystemDisk<S>) -> Option<u32> {
    let mut count = 0u32;
    for call in calls {
        count = count.saturating_add(failures(*call, disk)?);
    }
    Some(count)
}

// The same, of a new disk over the system.
fn failures_over(
    alloc: Global,
    system: &System,
    calls: &[Call],
) -> Result<Option<u32>, AllocError> {
    let path = String::from_str(alloc, "vol/1/a")?;
    let mut disk = FileDisk::new(system.clone()?, path);
    Ok(all_failures(calls, &mut disk))
}

fn sum(some: Option<u32>, more: Option<u32>) -> Option<u32> {
    some?.checked_add(more?)
}

// Whether each line of the one is a line of the other.
fn has_lines_of(all: &[u8], some: &[u8]) -> bool {
    some.split(|byte| *byte == b'\n').all(|line| all
        .split(|byte| *byte == b'\n')
        .any(|other| other == line))
}

// Whether the calls are answered, all is made and synced, and the file holds what was written, where the call of the
// system with this number fails.
fn is_told(alloc: Global, fails: u32) -> Result<bool, AllocError> {
    let system = System::new(alloc, fails)?;
    let making = failures_over(alloc, &system, &MAKING)?;
    let finding = failures_over(alloc, &system, &FINDING)?;
    let Some((calls, notes, bytes)) = system.into_parts() else {
        return Ok(false);
    };
    let is_fault = (1..=calls).contains(&fails) && fails != ASKED;
    let is_noted = if is_fault {
        has_lines_of(&notes, NOTES)
    } else {
        notes.as_slice() == NOTES
    };
    Ok(
        calls < MOST
            && sum(making, finding) == Some(u32::from(is_fault))
            && is_noted
            && bytes.as_slice() == b"abcd".as_slice(),
    )
}

#[test]
fn each_failure_of_the_system_is_a_fault_and_costs_nothing(rt: HostRuntime) -> Result<(), Fail> {
    for fails in 0..=MOST {
        let is = is_told(rt.alloc(), fails)?;
        assert!(rt; is, "call {fails}");
    }
    Ok(())
}

/// What is made and synced of a long file.
const LONG_NOTES: &[u8] = b"made vol
made vol/1
made vol/1/a
synced vol/1/a
opened vol/1
synced vol/1
opened vol
synced vol
opened .
synced .
";

// Whether a long piece is taken, synced and given as a short one.
fn takes_long(alloc: Global, piece: &[u8], into: &mut [u8]) -> Result<bool, AllocError> {
    let system = System::moving(alloc, 0, 1024 * 1024)?;
    let path = String::from_str(alloc, "vol/1/a")?;
    let is_given = takes(&mut FileDisk::new(system.clone()?, path), piece, into);
    let Some((_, notes, bytes)) = system.into_parts() else {
        return Ok(false);
    };
    Ok(is_given && notes.as_slice() == LONG_NOTES && bytes.as_slice() == piece)
}

#[test]
fn a_long_file_is_synced_with_each_folder(rt: HostRuntime) -> Result<(), Fail> {
    let piece = long_piece(rt.alloc())?;
    let mut into = vec![in rt.alloc(); 0u8; piece.len()]?;
    let is = takes_long(rt.alloc(), &piece, &mut into)?;
    assert!(rt; is);
    Ok(())
}
