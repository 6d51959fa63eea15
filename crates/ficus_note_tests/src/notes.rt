// What is noted, and what is found of it.
ghost use Rattle.std.specs.Prelude.{◌<◌};

use ficus_disk::{Disk, Pair, fresh_pair};
use ficus_ids::Memory;
use ficus_keeper::{Keep, MakeFault};
use ficus_note::{Asked, Note, NoteFault};
use ficus_two_slots::TwoSlot;
use std::alloc::Global;
use std::test::Fail;

/// What is found on disks.
#[derive(Clone, Copy, PartialEq)]
enum Is {
    Noted(Option<Asked>),
    NoNote,
    Damaged,
    Failed,
    Memory,
}

fn found<D: Disk>(alloc: Global, disks: &mut Pair<D>) -> Is {
    match Note::open(alloc, disks) {
        Ok(note) => Is::Noted(note.asked()),
        Err(NoteFault::Failed) => Is::Failed,
        Err(NoteFault::NoNote) => Is::NoNote,
        Err(NoteFault::Damaged) => Is::Damaged,
        Err(NoteFault::Memory) => Is::Memory,
    }
}

const ONE: Option<Asked> = Some(Asked { to: 1, number: 17 });

const LAST: Option<Asked> = Some(Asked {
    to: 8,
    number: u64::MAX,
});

/// Bytes that are kept, and what is found of them.
const KEPT: [(&[u8], Is); 8] = [
    (&[0, 0, 0, 0, 0, 0, 0, 0, 0], Is::Noted(None)),
    (&[1, 0, 0, 0, 0, 0, 0, 0, 17], Is::Noted(ONE)),
    (
        &[8, 255, 255, 255, 255, 255, 255, 255, 255],
        Is::Noted(LAST),
    ),
    (&[0, 0, 0, 0, 0, 0, 0, 0, 1], Is::Damaged),
    (&[9, 0, 0, 0, 0, 0, 0, 0, 1], Is::Damaged),
    (&[1, 0, 0, 0, 0, 0, 0, 17], Is::Damaged),
    (&[1, 0, 0, 0, 0, 0, 0, 0, 17, 0], Is::Damaged),
    (&[], Is::Damaged),
];

fn found_of(alloc: Global, bytes: &[u8]) -> Result<Is, MakeFault> {
    let mut disks = fresh_pair(alloc);
    TwoSlot::make(alloc, &mut disks, bytes)?;
    Ok(found(alloc, &mut disks))
}

#[test]
fn nothing_is_kept_on_fresh_disks(rt: HostRuntime) -> Result<(), Fail> {
    let mut disks = fresh_pair(rt.alloc());
    assert!(rt; found(rt.alloc(), &mut disks) == Is::NoNote);
    Ok(())
}

#[test]
fn what_is_kept_is_a_note_or_damage(rt: HostRuntime) -> Result<(), Fail> {
    for (row, (bytes, is)) in KEPT.iter().enumerate() {
        let found = found_of(rt.alloc(), bytes);
        assert!(rt; found == Ok(*is), "row {row}");
    }
    Ok(())
}

// Opens the disks and saves the note, with both disks armed behind the preparations; whether that was done.
fn saves<D: Disk>(
    alloc: Global,
    disks: &mut Pair<D>,
    noted: Option<Asked>,
    calls: u32,
    pick: u8,
) -> Result<bool, NoteFault>
    requires { pick < 4 }
{
    let mut note = Note::open(alloc, disks)?;
    if note.is_full() {
        return Ok(false);
    }
    if let Err(Memory) = note.prepare(disks) {
        return Err(NoteFault::Memory);
    }
    disks.a.arm(calls, pick);
    disks.b.arm(calls, pick);
    Ok(note.save(disks, noted).is_ok())
}

// What is found once both disks are opened again.
fn found_again<D: Disk>(alloc: Global, disks: &mut Pair<D>) -> Is {
    if disks.a.again().is_err() || disks.b.again().is_err() {
        return Is::Failed;
    }
    found(alloc, disks)
}

/// Notes one after the other, after how many calls and with which pick their save is stopped, whether it is done, and
/// what is then found.
const SAVES: [(Option<Asked>, u32, u8, bool, Is); 7] = [
    // It is noted already, and no disk is called.
    (None, 0, 0, true, Is::Noted(None)),
    (ONE, 0, 0, false, Is::Noted(None)),
    (ONE, 6, 0, true, Is::Noted(ONE)),
    (LAST, 3, 0, false, Is::Noted(ONE)),
    (LAST, 6, 0, true, Is::Noted(LAST)),
    (LAST, 0, 0, true, Is::Noted(LAST)),
    (None, 6, 0, true, Is::Noted(None)),
];

#[test]
fn a_stopped_save_leaves_one_of_two_notes(rt: HostRuntime) -> Result<(), Fail> {
    let mut disks = fresh_pair(rt.alloc());
    assert!(rt; Note::make(rt.alloc(), &mut disks) == Ok(()));
    assert!(rt; found(rt.alloc(), &mut disks) == Is::Noted(None));
    for (row, (noted, calls, pick, done, is)) in SAVES.iter().enumerate() {
        let saved = saves(rt.alloc(), &mut disks, *noted, *calls, (*pick).min(3));
        assert!(rt; saved == Ok(*done), "row {row}");
        assert!(rt; found_again(rt.alloc(), &mut disks) == *is, "row {row}");
    }
    Ok(())
}
