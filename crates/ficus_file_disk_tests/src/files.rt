// Disks over files of the system, below the folder that the tests run in.
use crate::calls::{Call, long_piece, takes};
use ficus_faults::Failed;
use ficus_file_disk::FileDisk;
use std::alloc::AllocError;
use std::fs;
use std::test::Fail;

/// A disk over the file of this name, what its calls answer, and which file or folder is then there or isn't.
#[derive(Drop)]
struct Row {
    path: &'static str,
    calls: &'static [Call],
    then: (&'static str, bool),
}

// One after the other, over the same files.
const ROWS: [Row; 7] = [
    // It is missing, and nothing makes it.
    Row {
        path: "made/1/a",
        calls: &[
            Call::Size(Ok(0)),
            Call::Sync(Ok(())),
            Call::Again(Ok(())),
            Call::Read(0, Err(Failed)),
            Call::Size(Ok(0)),
        ],
        then: ("made", false),
    },
    // A write makes it, and its folders.
    Row {
        path: "made/1/a",
        calls: &[
            Call::Write(0, &[1, 2, 3], Ok(())),
            Call::Size(Ok(3)),
            Call::Sync(Ok(())),
            Call::Write(3, &[4, 5], Ok(())),
            Call::Again(Ok(())),
            Call::Size(Ok(5)),
            Call::Read(2, Ok([3, 4, 5])),
            Call::Read(3, Err(Failed)),
            Call::Read(6, Err(Failed)),
            Call::Write(1, &[9], Ok(())),
            Call::Sync(Ok(())),
        ],
        then: ("made/1/a", true),
    },
    // Another disk finds what was written.
    Row {
        path: "made/1/a",
        calls: &[Call::Read(0, Ok([1, 9, 3])), Call::Size(Ok(5))],
        then: ("made/1/a", true),
    },
    // Below a file there is no file.
    Row {
        path: "made/1/a/b",
        calls: &[
            Call::Size(Err(Failed)),
            Call::Read(0, Err(Failed)),
            Call::Write(0, &[1], Err(Failed)),
            Call::Sync(Err(Failed)),
            Call::Again(Err(Failed)),
        ],
        then: ("made/1/a", true),
    },
    // A folder is no file.
    Row {
        path: "made/1",
        calls: &[Call::Size(Err(Failed)), Call::Write(0, &[1], Err(Failed))],
        then: ("made/1/a", true),
    },
    // The folder is there.
    Row {
        path: "made/1/b",
        calls: &[
            Call::Write(0, &[7, 8, 9], Ok(())),
            Call::Sync(Ok(())),
            Call::Read(0, Ok([7, 8, 9])),
        ],
        then: ("made/1/b", true),
    },
    // A name without a folder.
    Row {
        path: "made-alone",
        calls: &[
            Call::Write(0, &[1, 2, 3], Ok(())),
            Call::Sync(Ok(())),
            Call::Again(Ok(())),
            Call::Size(Ok(3)),
        ],
        then: ("made-alone", true),
    },
];

// The first of the calls that the disk answers otherwise, if there is any.
fn first_otherwise(disk: &mut FileDisk<HostRuntime>, calls: &[Call]) -> Option<usize> {
    for (number, call) in calls.iter().enumerate() {
        if call.made(disk) != *call {
            return Some(number);
        }
    }
    None
}

// The same of a disk over the file at this path.
fn first_otherwise_at(rt: HostRuntime, files: &Row) -> Result<Option<usize>, AllocError> {
    let mut disk = FileDisk::new(rt, String::from_str(rt.alloc(), files.path)?);
    Ok(first_otherwise(&mut disk, files.calls))
}

#[test]
fn disks_over_files_of_the_system(rt: HostRuntime) -> Result<(), Fail> {
    for (row, files) in ROWS.iter().enumerate() {
        let call = first_otherwise_at(rt, files)?;
        assert!(rt; call.is_none(), "row {row}, call {call:?}");
        let (path, is_there) = files.then;
        let is = fs::exists(&rt, path)?;
        assert!(rt; is == is_there, "row {row}: {path}");
    }
    fs::remove_file(&rt, "made-alone")?;
    fs::remove_dir_all(&rt, "made")?;
    Ok(())
}

#[test]
fn a_file_takes_long_pieces(rt: HostRuntime) -> Result<(), Fail> {
    let piece = long_piece(rt.alloc())?;
    let mut into = vec![in rt.alloc(); 0u8; piece.len()]?;
    let mut disk = FileDisk::new(rt, String::from_str(rt.alloc(), "long")?);
    assert!(rt; takes(&mut disk, &piece, &mut into));
    fs::remove_file(&rt, "long")?;
    Ok(())
}
