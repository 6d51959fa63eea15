// Tables that are written out, and what is no tables.
ghost use Rattle.std.specs.Prelude.{◌≡◌};
ghost use Rattle.ficus_durable_state.specs.Tables.{FitsTables};
ghost use Rattle.ficus_entry.specs.Entry.{IsRising as IsRisingEntries};
ghost use Rattle.ficus_file.specs.Files.{AreFiles};

use crate::variants::{OtherByte, changed};
use ficus_codec::{Known, TakeFault, put_tables, read_all_rows, tables_of, take_tables};
use ficus_entry::SharedEntry;
use ficus_file::SharedFile;
use ficus_formats::{ReadFault, Reader, take_id, take_u8, take_u16, take_u32, take_u64};
use ficus_ids::{Id, Members, Memory};
use std::alloc::Global;
use std::test::Fail;

// What replica 1 holds after `1 mkdir /a`: the entry 1.1 and the directory 1.1.
const DIRECTORY: [u8; 41] = [
    0, 0, 0, 1, 1, 0, 0, 0, 1, 0, 0, 0, 0, 0, 1, 97, 1, 0, 0, 0, 1, 0, 0, 0, 0, 1, 1, 0, 0, 0, 1,
    0, 0, 0, 0, 0, 0, 0, 0, 0, 0,
];

// What replica 1 holds where it made a file and a directory: 1.1 is plain, with one empty version, and 1.2 a directory,
// whose entry is removed.
const REMOVED: [u8; 86] = [
    0, 0, 0, 2, 1, 0, 0, 0, 1, 0, 0, 0, 0, 0, 1, 97, 1, 0, 0, 0, 1, 0, 1, 0, 0, 0, 2, 0, 0, 0, 0,
    0, 1, 98, 1, 0, 0, 0, 2, 1, 3, 2, 0, 0, 0, 2, 1, 0, 0, 0, 1, 1, 1, 0, 0, 0, 1, 0, 0, 0, 0, 0,
    0, 0, 0, 0, 0, 0, 0, 0, 0, 1, 0, 0, 0, 2, 0, 0, 0, 0, 0, 0, 0, 0, 0, 0,
];

// No entry, and a file with two versions: [0,1] has a byte, and [1,0] none.
const APART: [u8; 44] = [
    0, 0, 0, 0, 0, 0, 0, 1, 1, 0, 0, 0, 1, 1, 2, 0, 0, 0, 0, 0, 0, 0, 1, 0, 1, 120, 0, 0, 0, 1, 0,
    0, 0, 0, 0, 0, 0, 0, 0, 0, 0, 0, 0, 0,
];

// Bytes of tables that are changed, so that they are no tables any more.
//
// Of the directory: a count that is too great; an identifier of no member and one of no update; a directory that is no
// place; a live entry of the attic; a name of no byte, and one with `#`; a target that isn't there; a state that there
// isn't; files that aren't there; another file; a file without a version; a kind that there isn't; a directory with a
// version, and one with a cover.
const NO_DIRECTORY: [OtherByte; 15] = [
    OtherByte { place: 3, byte: 2 },
    OtherByte { place: 4, byte: 3 },
    OtherByte { place: 8, byte: 0 },
    OtherByte { place: 13, byte: 2 },
    OtherByte { place: 13, byte: 1 },
    OtherByte { place: 14, byte: 0 },
    OtherByte {
        place: 15,
        byte: b'#',
    },
    OtherByte { place: 20, byte: 2 },
    OtherByte { place: 21, byte: 2 },
    OtherByte { place: 25, byte: 2 },
    OtherByte { place: 30, byte: 2 },
    OtherByte { place: 31, byte: 1 },
    OtherByte { place: 31, byte: 5 },
    OtherByte { place: 32, byte: 1 },
    OtherByte { place: 36, byte: 1 },
];

// Of the removed entry: two entries in the wrong order, and twice the same one; a first set that is empty, and one with
// a replica that is no member; two files in the wrong order; a count above the greatest; a version longer than what
// follows.
const NOT_REMOVED: [OtherByte; 7] = [
    OtherByte { place: 8, byte: 3 },
    OtherByte { place: 26, byte: 1 },
    OtherByte { place: 40, byte: 0 },
    OtherByte { place: 40, byte: 7 },
    OtherByte { place: 50, byte: 3 },
    OtherByte { place: 53, byte: 1 },
    OtherByte {
        place: 61,
        byte: 255,
    },
];

// Of the file with two versions: the second over the first, the first over the second, and one version more than there
// are.
const NOT_APART: [OtherByte; 3] = [
    OtherByte { place: 33, byte: 1 },
    OtherByte { place: 18, byte: 2 },
    OtherByte { place: 14, byte: 3 },
];

// Whether the bytes are tables from the first to the last, and are written again as they were read.
fn stay_so(alloc: Global, bytes: &[u8], members: Members) -> Result<bool, Memory> {
    match take_tables(alloc, bytes, 0, members) {
        Ok((entries, files, end)) => {
            let mut out = Vec::new(alloc);
            put_tables(&mut out, &entries, &files, members)?;
            Ok(end == bytes.len() && out.as_slice() == bytes)
        }
        Err(TakeFault::NotTables) => Ok(false),
        Err(TakeFault::Memory) => Err(Memory),
    }
}

// Whether there are tables at the place no more once the byte is changed.
fn is_refused(
    alloc: Global,
    bytes: &[u8],
    change: OtherByte,
    members: Members,
) -> Result<bool, Memory> {
    let changed = changed(alloc, bytes, change)?;
    match take_tables(alloc, &changed, 0, members) {
        Ok(_) => Ok(false),
        Err(TakeFault::NotTables) => Ok(true),
        Err(TakeFault::Memory) => Err(Memory),
    }
}

// Whether that is so of each change.
fn are_refused(
    alloc: Global,
    bytes: &[u8],
    changes: &[OtherByte],
    members: Members,
) -> Result<bool, Memory> {
    for change in changes {
        if !is_refused(alloc, bytes, *change, members)? {
            return Ok(false);
        }
    }
    Ok(true)
}

/// Tables, and the changes of a byte that leave none.
const TABLES: [(&[u8], &[OtherByte]); 4] = [
    (&DIRECTORY, &NO_DIRECTORY),
    (&REMOVED, &NOT_REMOVED),
    (&APART, &NOT_APART),
    (&[0; 8], &[]),
];

#[test]
fn tables_have_one_spelling(rt: HostRuntime) -> Result<(), Fail> {
    let members = Members::new(2).ok_or("two")?;
    for (place, (bytes, changes)) in TABLES.iter().enumerate() {
        assert!(rt; stay_so(rt.alloc(), bytes, members)?, "{place}");
        assert!(rt;
            are_refused(rt.alloc(), bytes, changes, members)?,
            "{place}"
        );
    }
    assert!(rt; !stay_so(rt.alloc(), &[0; 7], members)?);
    Ok(())
}

// What spells the tables that have these rows.
fn spelled(
    alloc: Global,
    entries: &[SharedEntry],
    files: &[SharedFile],
    members: Members,
) -> Result<Vec<u8>, Memory>
    requires entries { IsRisingEntries entries.now }
    requires files { AreFiles files.now }
    requires fits { FitsTables members entries.now files.now }
{
    let (entries, files) = tables_of(alloc, entries, files)?;
    let mut out = Vec::new(alloc);
    put_tables(&mut out, &entries, &files, members)?;
    Ok(out)
}

// Whether the bytes are written again as they were read where these rows are known.
fn stay_so_where_known(
    alloc: Global,
    bytes: &[u8],
    known: &Known,
    members: Members,
) -> Result<bool, Memory>
    requires { known.now ≡ members }
{
    match read_all_rows(alloc, Reader::new(bytes), known) {
        Ok((entries, files)) => {
            let out = spelled(alloc, entries.items(), files.items(), members)?;
            Ok(out.as_slice() == bytes)
        }
        Err(ReadFault::Unspelled) => Ok(false),
        Err(ReadFault::Memory) => Err(Memory),
    }
}

// Whether the bytes are written again as they were read where the rows of other tables are known.
fn stay_so_beside(
    alloc: Global,
    bytes: &[u8],
    known: &[u8],
    members: Members,
) -> Result<bool, Memory> {
    match take_tables(alloc, known, 0, members) {
        Ok((entries, files, _)) => {
            let known = Known::of(&entries, &files, members)?;
            stay_so_where_known(alloc, bytes, &known, members)
        }
        Err(_) => Ok(false),
    }
}

// Other tables with the same identifiers: the removed entry has another second set, and the file another cover.
const OTHER_SET: OtherByte = OtherByte { place: 41, byte: 0 };

const OTHER_COVER: OtherByte = OtherByte { place: 70, byte: 1 };

#[test]
fn what_is_known_changes_nothing_that_is_read(rt: HostRuntime) -> Result<(), Fail> {
    let members = Members::new(2).ok_or("two")?;
    let other_set = changed(rt.alloc(), &REMOVED, OTHER_SET)?;
    let other_cover = changed(rt.alloc(), &REMOVED, OTHER_COVER)?;
    let beside: [(&[u8], &[u8]); 7] = [
        (&REMOVED, &REMOVED),
        (&REMOVED, &other_set),
        (&REMOVED, &other_cover),
        (&other_set, &REMOVED),
        (&DIRECTORY, &REMOVED),
        (&APART, &APART),
        (&APART, &REMOVED),
    ];
    for (place, (bytes, known)) in beside.iter().enumerate() {
        assert!(rt;
            stay_so_beside(rt.alloc(), bytes, known, members)?,
            "{place}"
        );
    }
    Ok(())
}

#[test]
fn numbers_are_taken_at_their_places(rt: HostRuntime) -> Result<(), Fail> {
    let bytes = [1, 2, 3, 4, 5, 6, 7, 8, 9];
    assert_eq!(rt; (take_u8(&bytes, 8), take_u8(&bytes, 9)), (Some(9), None));
    assert_eq!(rt;
        (take_u16(&bytes, 7), take_u16(&bytes, 8)),
        (Some(0x0809), None)
    );
    assert_eq!(rt;
        (take_u32(&bytes, 5), take_u32(&bytes, 6)),
        (Some(0x0607_0809), None)
    );
    assert_eq!(rt;
        (take_u64(&bytes, 1), take_u64(&bytes, 2)),
        (Some(0x0203_0405_0607_0809), None)
    );
    let id = Id {
        replica: 5,
        number: 0x0607_0809,
    };
    assert!(rt; take_id(&bytes, 4) == Some(id) && take_id(&bytes, 5).is_none());
    Ok(())
}
