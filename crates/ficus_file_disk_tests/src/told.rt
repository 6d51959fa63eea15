// What disks ask of a system that tells it.
use crate::note::Note;
use crate::noted::{MAKING, MOST, all_failures};
use crate::system::System;
use crate::telling::Telling;
use ficus_file_disk::{Runtime, SystemDisk};
use std::alloc::{AllocError, Global};
use std::process::Abort;
use std::test::Fail;

/// What the calls that make a file ask, and what is answered: of a call on the open file no path, else no number.
const TOLD: [(&str, &[u8], u64); 23] = [
    ("no file", b"vol/1/a", 0),
    ("no file", b"vol/1/a", 0),
    ("no file", b"vol/1/a", 0),
    ("no file", b"vol/1/a", 0),
    ("no folder", b"vol/1", 0),
    ("no folder", b"vol", 0),
    ("folder", b".", 0),
    ("made folder", b"vol/1", 0),
    ("made", b"vol/1/a", 0),
    ("at", b"", 0),
    ("took", b"ab", 0),
    ("synced", b"", 0),
    ("synced folder", b"vol/1", 0),
    ("synced folder", b"vol", 0),
    ("synced folder", b".", 0),
    ("at", b"", 2),
    ("took", b"cd", 0),
    ("synced", b"", 0),
    ("opened", b"vol/1/a", 0),
    ("synced", b"", 0),
    ("at", b"", 1),
    ("gave", b"bcd", 0),
    ("size", b"", 4),
];

// How many of the calls that make a file fail at first, where the call of the system below with this number fails, and
// what is told of all. No count where another answer comes.
fn asks<R: Abort + Drop>(
    rt: R,
    alloc: Global,
    fails: u32,
) -> Result<(Option<u32>, Vec<Note>), AllocError> {
    let system = Telling::over(Runtime::new(System::new(alloc, fails)?), rt, alloc);
    let mut disk = SystemDisk::over(system, String::from_str(alloc, "vol/1/a")?);
    let failures = all_failures(&MAKING, &mut disk);
    Ok((failures, disk.into_inner().into_notes()))
}

// Whether the notes are these.
fn are(notes: &[Note], told: &[(&str, &[u8], u64)]) -> bool {
    notes.len() == told.len()
        && notes
            .iter()
            .zip(told)
            .all(|(note, parts)| note.parts() == *parts)
}

fn refusals(notes: &[Note]) -> u32 {
    let mut count = 0u32;
    for note in notes {
        count = count.saturating_add(u32::from(note.parts().0 == "refused"));
    }
    count
}

#[test]
fn a_disk_asks_the_system_for_what_its_calls_say(rt: HostRuntime) -> Result<(), Fail> {
    let (failures, notes) = asks(rt, rt.alloc(), 0)?;
    assert!(rt; failures == Some(0));
    assert!(rt; are(&notes, &TOLD));
    Ok(())
}

#[test]
fn a_disk_fails_where_the_system_refuses(rt: HostRuntime) -> Result<(), Fail> {
    for fails in 1..=MOST {
        let (failures, notes) = asks(rt, rt.alloc(), fails)?;
        assert!(rt; failures == Some(refusals(&notes)), "call {fails}");
    }
    Ok(())
}
