use crate::fault::Fault;
use ficus_entry::{Entries, Entry, State};
use ficus_ids::{Id, Marks, Members, Name, ROOT};
use ficus_merge_entries::merge_entries;
use std::alloc::Global;
use std::test::Fail;

// An identifier: the replica and the number.
#[derive(Clone, Copy)]
struct At(u8, u32);

impl At {
    fn id(self) -> Id {
        Id {
            replica: self.0,
            number: self.1,
        }
    }
}

// The state of an entry. A set of replicas has bit 0 for replica 1 and bit 1 for replica 2.
#[derive(Clone, Copy)]
enum Held {
    Live,
    Dead(u8, u8),
}

fn marks(bits: u8) -> Marks {
    let mut marks = Marks::empty();
    if bits & 1 != 0 {
        marks = marks.with(1);
    }
    if bits & 2 != 0 {
        marks = marks.with(2);
    }
    marks
}

impl Held {
    fn state(self) -> State {
        match self {
            Held::Live => State::Live,
            Held::Dead(one, two) => State::Dead {
                one: marks(one),
                two: marks(two),
            },
        }
    }
}

// Adds an entry of the root.
fn enter(entries: &mut Entries, entry: At, name: &[u8], state: Held) -> Result<(), Fault> {
    let name = Name::new(name)?;
    let id = entry.id();
    entries.put(Entry {
        id,
        dir: ROOT,
        name,
        target: id,
        state: state.state(),
    })?;
    Ok(())
}

// Adds so many entries, and one in this state, if any.
fn fill(entries: &mut Entries, name: &[u8], state: Option<Held>, others: u32) -> Result<(), Fault> {
    for number in 0..others {
        enter(entries, At(1, number), b"other", Held::Live)?;
    }
    match state {
        Some(state) => enter(entries, At(2, 1), name, state),
        None => Ok(()),
    }
}

// An entry in this state, if any, and so many others.
fn holding(alloc: Global, name: &[u8], state: Option<Held>, others: u32) -> Result<Entries, Fault> {
    let mut entries = Entries::new(alloc);
    fill(&mut entries, name, state, others)?;
    Ok(entries)
}

// The state of the entry of replica 2, if it is there.
fn state(entries: &Entries) -> Option<State> {
    match entries.get(At(2, 1).id()) {
        Some(entry) => Some(entry.state),
        None => None,
    }
}

// The state of the entry once replica 1 of 2 has taken what replica 2 holds, if it then has one.
fn merged(alloc: Global, mine: &Entries, theirs: &Entries) -> Result<Option<State>, Fault> {
    let members = Members::new(2).ok_or(Fault::Row)?;
    let merged = merge_entries(alloc, mine, theirs, 1, members)?;
    Ok(state(&merged))
}

// The same, where replica 2 holds the entry in this state, if any, and so many others.
fn taken(
    alloc: Global,
    mine: &Entries,
    theirs: Option<Held>,
    others: u32,
) -> Result<Option<State>, Fault> {
    let theirs = holding(alloc, b"b", theirs, others)?;
    merged(alloc, mine, &theirs)
}

// The same, where both hold the entry in these states, if any, beside so many others.
fn merge(
    alloc: Global,
    mine: Option<Held>,
    theirs: Option<Held>,
    others: u32,
) -> Result<Option<State>, Fault> {
    let mine = holding(alloc, b"a", mine, others)?;
    taken(alloc, &mine, theirs, others)
}

// The states in which replica 1 and replica 2 hold an entry, if they do, and the one in which replica 1 then holds it.
const MERGES: &[(u8, Option<Held>, Option<Held>, Option<Held>)] = &[
    (1, None, None, None),
    (2, None, Some(Held::Live), Some(Held::Live)),
    (3, None, Some(Held::Dead(2, 0)), Some(Held::Dead(3, 1))),
    (4, None, Some(Held::Dead(3, 2)), None),
    (5, Some(Held::Live), None, Some(Held::Live)),
    (6, Some(Held::Live), Some(Held::Live), Some(Held::Live)),
    (
        7,
        Some(Held::Live),
        Some(Held::Dead(2, 0)),
        Some(Held::Dead(3, 1)),
    ),
    (
        8,
        Some(Held::Dead(1, 0)),
        Some(Held::Live),
        Some(Held::Dead(1, 0)),
    ),
    (
        9,
        Some(Held::Dead(1, 0)),
        Some(Held::Dead(2, 0)),
        Some(Held::Dead(3, 1)),
    ),
    (
        10,
        Some(Held::Dead(3, 1)),
        Some(Held::Dead(3, 2)),
        Some(Held::Dead(3, 3)),
    ),
    (11, Some(Held::Dead(1, 0)), None, Some(Held::Dead(1, 0))),
    (12, Some(Held::Dead(3, 1)), None, Some(Held::Dead(3, 3))),
];

#[test]
fn entries_merge_by_the_table(rt: HostRuntime) -> Result<(), Fail> {
    for &(row, mine, theirs, after) in MERGES {
        let after = after.map(Held::state);
        let alone = merge(rt.alloc(), mine, theirs, 0)?;
        assert!(rt; alone == after, "row {row}");
        let beside = merge(rt.alloc(), mine, theirs, 40)?;
        assert!(rt; beside == after, "row {row} beside 40");
    }
    Ok(())
}
