use crate::fault::Fault;
use ficus_entry::{Entry, SharedEntry, State};
use ficus_file::{FileReplica, Files};
use ficus_ids::{Id, Kind, Memory, Name, ROOT};
use ficus_table::{InOrder, Table};
use std::alloc::Global;
use std::test::Fail;

const OBJECT: Id = Id {
    replica: 1,
    number: 1,
};

// An entry for the object.
fn entry() -> Result<Entry, Fault> {
    Ok(Entry {
        id: OBJECT,
        dir: ROOT,
        name: Name::new(b"object")?,
        target: OBJECT,
        state: State::Live,
    })
}

// How many rows a table has into which one was put that it hadn't.
fn count_inserted(alloc: Global) -> Result<usize, Fault> {
    let mut table = Table::new(alloc);
    table.insert(SharedEntry::of(alloc, entry()?)?)?;
    Ok(table.len())
}

// How many rows stand in order that stand in no table.
fn count_over(alloc: Global) -> Result<usize, Fault> {
    let rows = [entry()?];
    let in_order = InOrder::<SharedEntry>::over(alloc, &rows)?;
    Ok(in_order.len())
}

// A list of one directory, made at once.
fn one_directory(alloc: Global) -> Result<Files, Memory> {
    let directory = FileReplica::made(OBJECT, Kind::Dir, 1, Vec::new(alloc))?;
    let mut files = Vec::new(alloc);
    files.push(directory)?;
    Files::of(alloc, files)
}

// Whether another list may share what a list has of the object.
fn is_shared(alloc: Global) -> Result<bool, Memory> {
    let files = one_directory(alloc)?;
    if files.get(OBJECT).is_none() {
        return Ok(false);
    }
    let shared = files.share(OBJECT)?;
    Ok(shared.file().id == OBJECT)
}

#[test]
fn rows_are_put_in_and_shared(rt: HostRuntime) -> Result<(), Fail> {
    let alloc = rt.alloc();
    assert_eq!(rt; count_inserted(alloc)?, 1);
    assert_eq!(rt; count_over(alloc)?, 1);
    let shared = is_shared(alloc)?;
    assert!(rt; shared);
    Ok(())
}
