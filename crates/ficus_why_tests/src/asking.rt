use crate::histories::{Happened, happens};
use ficus_ids::{Id, Refusal};
use ficus_model::History;
use ficus_why::{Clash, check_why, is_plain};
use std::alloc::Global;
use std::test::Fail;

// Replica 1 has heard of what 2 wrote, but not 2 of what 1 wrote.
const HEARD_BY_1: Happened = Happened {
    count: 11,
    second: b"b",
};

const HEARD_BY_BOTH: Happened = Happened {
    count: 14,
    second: b"b",
};

const OF_EQUAL_BYTES: Happened = Happened {
    count: 14,
    second: b"a",
};

const SETTLED_BY_1: Happened = Happened {
    count: 15,
    second: b"b",
};

// What has happened, a replica, the number of a file of replica 1, two positions, and whether the updates there clash.
const CLASHES: &[(Happened, u8, u32, [u32; 2], bool)] = &[
    (HEARD_BY_BOTH, 1, 1, [6, 7], true),
    (HEARD_BY_BOTH, 2, 1, [6, 7], true),
    (OF_EQUAL_BYTES, 1, 1, [6, 7], false),
    // Another file.
    (HEARD_BY_BOTH, 1, 2, [6, 7], false),
    // The later one first, and one alone.
    (HEARD_BY_BOTH, 1, 1, [7, 6], false),
    (HEARD_BY_BOTH, 1, 1, [6, 6], false),
    // The making of the file, which gave it other bytes; an ask; and what hasn't happened.
    (HEARD_BY_BOTH, 1, 1, [2, 7], false),
    (HEARD_BY_BOTH, 1, 1, [3, 7], false),
    (HEARD_BY_BOTH, 1, 1, [6, 14], false),
    // Replica 1 has heard of both, 2 of one of them, and those that are no members of nothing.
    (HEARD_BY_1, 1, 1, [6, 7], true),
    (HEARD_BY_1, 2, 1, [6, 7], false),
    (HEARD_BY_BOTH, 3, 1, [6, 7], false),
    (HEARD_BY_BOTH, 8, 1, [6, 7], false),
    // Replica 1 has settled the file over both, of which replica 2 hasn't heard.
    (SETTLED_BY_1, 1, 1, [6, 7], false),
    (SETTLED_BY_1, 2, 1, [6, 7], true),
    (SETTLED_BY_1, 1, 1, [7, 14], false),
];

#[test]
fn updates_clash_by_the_table(rt: HostRuntime) -> Result<(), Fail> {
    for &(happened, replica, number, [first, second], is) in CLASHES {
        let file = Id { replica: 1, number };
        let clash = Clash {
            replica,
            file,
            first,
            second,
        };
        let found = clash_after(rt.alloc(), happened, &clash)?;
        assert!(rt;
            found == is,
            "{happened:?} {replica} {number} {first} {second}"
        );
    }
    Ok(())
}

// Whether the pair clashes after that.
fn clash_after(alloc: Global, happened: Happened, clash: &Clash) -> Result<bool, Refusal> {
    let mut history = History::new(alloc);
    happens(alloc, happened, &mut history)?;
    clashes(alloc, &history, clash)
}

// Whether the pair clashes in this history.
fn clashes(alloc: Global, history: &History, clash: &Clash) -> Result<bool, Refusal> {
    if !is_plain(history) {
        return Err(Refusal::Image);
    }
    if clash.replica < 1 || clash.replica > 8 {
        return Err(Refusal::Member);
    }
    Ok(check_why(alloc, history, clash)?)
}

// How many steps have happened, a replica, a position, and whether what was served there answers the replica's open
// ask.
const FRESH: &[(usize, u8, u32, bool)] = &[
    (5, 2, 4, true),
    (10, 1, 9, true),
    (13, 2, 12, true),
    // Another asked, and what stands there is an ask, or hasn't happened.
    (5, 1, 4, false),
    (5, 2, 3, false),
    (9, 1, 9, false),
    // It is taken, and it answers an earlier ask.
    (6, 2, 4, false),
    (13, 2, 4, false),
];

#[test]
fn answers_to_open_asks_are_fresh(rt: HostRuntime) -> Result<(), Fail> {
    for &(count, replica, position, is) in FRESH {
        let happened = Happened {
            count,
            second: b"b",
        };
        let found = fresh_after(rt.alloc(), happened, replica, position)?;
        assert!(rt; found == is, "{count} {replica} {position}");
    }
    Ok(())
}

fn fresh_after(
    alloc: Global,
    happened: Happened,
    replica: u8,
    position: u32,
) -> Result<bool, Refusal> {
    let mut history = History::new(alloc);
    happens(alloc, happened, &mut history)?;
    Ok(history.fresh(replica, position))
}
