// Volumes that are made, and run, over disks without fuses that are kept from one call to the next.
use crate::tests::calls::{Call, DONE, ends_so};
use crate::tests::disks::{failing_pairs, pairs, recording_pairs};
use ficus_disk::{Disk, Pair};
use ficus_top::Status;
use std::alloc::Global;
use std::test::Fail;

/// What the disks of the first replicas hold at first, and calls over the disks of all, one after the other.
struct Volume {
    held: &'static [Held],
    calls: &'static [Call<'static>],
}

/// What the two disks of a replica hold.
struct Held {
    a: &'static [u8],
    b: &'static [u8],
}

const NOTHING: Held = Held { a: b"", b: b"" };

const INIT: &str = "ficus init --members 3 vol";

const RUN: &str = "ficus run vol";

const NO_IMAGE_AT_1: Status = Status {
    code: 7,
    line: 0,
    replica: 1,
};

const NO_IMAGE_AT_2: Status = Status {
    code: 7,
    line: 0,
    replica: 2,
};

const OCCUPIED_AT_1: Status = Status {
    code: 9,
    line: 0,
    replica: 1,
};

const OCCUPIED_AT_2: Status = Status {
    code: 9,
    line: 0,
    replica: 2,
};

/// A volume is made.
const MADE: Call<'static> = Call {
    words: INIT,
    lines: "",
    ended: DONE,
};

/// A volume isn't opened, since replica 1 has no image, or since replica 2 has none.
const NOT_OPENED_AT_1: Call<'static> = Call {
    words: RUN,
    lines: "1 ls /",
    ended: NO_IMAGE_AT_1,
};

const NOT_OPENED_AT_2: Call<'static> = Call {
    words: RUN,
    lines: "1 ls /",
    ended: NO_IMAGE_AT_2,
};

const DAYS_WORK: Volume = Volume {
    held: &[],
    calls: &[
        NOT_OPENED_AT_1,
        MADE,
        Call {
            words: INIT,
            lines: "",
            ended: OCCUPIED_AT_1,
        },
        Call {
            words: RUN,
            lines: r#"1 mkdir /notes
    ok 1.1
1 create /notes/todo lines
    ok 1.2
1 write /notes/todo "milk\n"
    ok
1 create /plan.txt plain
    ok 1.4
1 write /plan.txt "draft\n"
    ok
pull 2 1
    ok
pull 3 1
    ok
2 write /notes/todo "bread\nmilk\n"
    ok
3 write /notes/todo "eggs\nmilk\n"
    ok
1 write /plan.txt "final A\n"
    ok
3 write /plan.txt "final B\n"
    ok
pull 1 2
    ok
pull 1 3
    ok
1 conflicts
    ok 2
    file 1.2
    file 1.4
1 resolve /notes/todo
    ok
1 read /notes/todo
    ok "bread\neggs\nmilk\n"
1 settle /plan.txt "final A and B\n"
    ok
pull 3 1
    ok"#,
            ended: DONE,
        },
        Call {
            words: RUN,
            lines: r#"alike 1 3
    ok alike
alike 1 2
    ok apart
3 read /plan.txt
    ok "final A and B\n"
3 mkdir /done
    ok 3.3
stop 1 0 0
    no nofuse"#,
            ended: DONE,
        },
    ],
};

// Images that stand for no history: `f` is live at replica 1, and replica 2 knows that 1 knows of its removal, but not
// that it does so itself.
const LIVE_AT_1: Held = Held {
    a: b"\x01\0\0\0\0\0\0\0\x01\0\0\0\0\0\0\0\x51\
        FIC1\x01\x02\0\x01\x86\xa0\0\x40\0\0\
        \0\0\0\x02\0\0\0\0\0\0\0\0\0\0\0\x01\
        \0\0\0\x01\x01\0\0\0\x01\0\0\0\0\0\x01f\x01\0\0\0\x01\0\
        \0\0\0\x01\x01\0\0\0\x01\x01\x01\0\0\0\x01\0\0\0\0\0\0\
        \0\0\0\0\0\0\0\0\
        \0",
    b: b"",
};

const DEAD_AT_2: Held = Held {
    a: b"\x01\0\0\0\0\0\0\0\x01\0\0\0\0\0\0\0\x53\
        FIC1\x02\x02\0\x01\x86\xa0\0\x40\0\0\
        \0\0\0\x01\0\0\0\0\0\0\0\0\0\0\0\x01\
        \0\0\0\x01\x01\0\0\0\x01\0\0\0\0\0\x01f\x01\0\0\0\x01\x01\x01\0\
        \0\0\0\x01\x01\0\0\0\x01\x01\x01\0\0\0\x01\0\0\0\0\0\0\
        \0\0\0\x01\0\0\0\0\
        \0",
    b: b"",
};

const FOREIGN_IMAGES: Volume = Volume {
    held: &[LIVE_AT_1, DEAD_AT_2],
    calls: &[Call {
        words: RUN,
        lines: "pull 1 2
    ok
1 ls /
    ok 0
1 marks
    ok 1
    1.1 0.0 f 1.1 one=1 two=-
pull 2 1
    ok
2 marks
    ok 1
    1.1 0.0 f 1.1 one=1 two=-
1 collect
    collected 0 0",
        ended: DONE,
    }],
};

// Disks that hold something that is no volume, or that of another.
const OTHERS: [Volume; 5] = [
    Volume {
        held: &[DEAD_AT_2],
        calls: &[NOT_OPENED_AT_1],
    },
    Volume {
        held: &[LIVE_AT_1],
        calls: &[NOT_OPENED_AT_2],
    },
    Volume {
        held: &[LIVE_AT_1, LIVE_AT_1],
        calls: &[NOT_OPENED_AT_2],
    },
    Volume {
        held: &[NOTHING, Held { a: b"", b: b"x" }],
        calls: &[
            Call {
                words: INIT,
                lines: "",
                ended: OCCUPIED_AT_2,
            },
            Call {
                words: "ficus replay --members 2",
                lines: "1 ls /",
                ended: OCCUPIED_AT_2,
            },
        ],
    },
    Volume {
        held: &[NOTHING, NOTHING, NOTHING, Held { a: b"x", b: b"" }],
        calls: &[
            MADE,
            Call {
                words: RUN,
                lines: "3 ls /\n    ok 0\n4 ls /\n    no member",
                ended: DONE,
            },
        ],
    },
];

fn hold<D: Disk>(disk: &mut D, bytes: &[u8]) -> Result<(), Fail> {
    disk.reserve(bytes.len() as u64)?;
    disk.write(0, bytes)?;
    disk.sync()?;
    Ok(())
}

fn hold_all<D: Disk>(disks: &mut Vec<Pair<D>>, held: &[Held]) -> Result<(), Fail> {
    for (pair, bytes) in disks.iter_mut().zip(held) {
        hold(&mut pair.a, bytes.a)?;
        hold(&mut pair.b, bytes.b)?;
    }
    Ok(())
}

// The place of the first call that doesn't end as it says, if there is one.
fn first_ended_otherwise(alloc: Global, volume: &Volume) -> Result<Option<usize>, Fail> {
    let mut disks = pairs(alloc)?;
    first_ended_otherwise_on(alloc, volume, &mut disks)
}

// The same over empty disks that tell past moments.
fn first_ended_otherwise_where_told(alloc: Global, volume: &Volume) -> Result<Option<usize>, Fail> {
    let mut disks = recording_pairs(alloc)?;
    first_ended_otherwise_on(alloc, volume, &mut disks)
}

// The same over these empty disks.
fn first_ended_otherwise_on<D: Disk>(
    alloc: Global,
    volume: &Volume,
    disks: &mut Vec<Pair<D>>,
) -> Result<Option<usize>, Fail> {
    hold_all(disks, volume.held)?;
    for (place, call) in volume.calls.iter().enumerate() {
        if !ends_so(alloc, call, disks)? {
            return Ok(Some(place));
        }
    }
    Ok(None)
}

#[test]
fn a_days_work_is_kept_from_one_call_to_the_next(rt: HostRuntime) -> Result<(), Fail> {
    let place = first_ended_otherwise(rt.alloc(), &DAYS_WORK)?;
    assert!(rt; place.is_none(), "{place:?}");
    Ok(())
}

#[test]
fn a_days_work_goes_on_over_disks_that_tell_past_moments(rt: HostRuntime) -> Result<(), Fail> {
    let place = first_ended_otherwise_where_told(rt.alloc(), &DAYS_WORK)?;
    assert!(rt; place.is_none(), "{place:?}");
    Ok(())
}

#[test]
fn images_that_stand_for_no_history_are_read(rt: HostRuntime) -> Result<(), Fail> {
    let place = first_ended_otherwise(rt.alloc(), &FOREIGN_IMAGES)?;
    assert!(rt; place.is_none(), "{place:?}");
    Ok(())
}

#[test]
fn what_disks_hold_besides_is_told(rt: HostRuntime) -> Result<(), Fail> {
    for (number, volume) in OTHERS.iter().enumerate() {
        let place = first_ended_otherwise(rt.alloc(), volume)?;
        assert!(rt; place.is_none(), "{number} {place:?}");
    }
    Ok(())
}

// How many calls are made of each disk of two members before the commands.
const CALLS: [u8; 4] = [10, 4, 10, 4];

#[test]
fn each_call_of_a_disk_before_the_commands_may_fail(rt: HostRuntime) -> Result<(), Fail> {
    for (disk, calls) in CALLS.iter().enumerate() {
        let calls = u32::from(*calls);
        for fails in 1..=calls + 1 {
            let mut disks = failing_pairs(rt.alloc(), disk as u8, fails)?;
            let ended = if fails <= calls {
                Status {
                    code: 6,
                    line: 0,
                    replica: disk as u8 / 2 + 1,
                }
            } else {
                DONE
            };
            let call = Call {
                words: "ficus replay --members 2",
                lines: "",
                ended,
            };
            let so = ends_so(rt.alloc(), &call, &mut disks)?;
            assert!(rt; so, "{disk} {fails}");
        }
    }
    Ok(())
}

// A volume that isn't made since a disk of replica 2 fails, and what a second making says: at the first call nothing
// has been written, and at the second replica 1 is made.
const UNMADE: &[(u32, Status)] = &[(1, DONE), (2, OCCUPIED_AT_1)];

const FAULT_AT_2: Status = Status {
    code: 6,
    line: 0,
    replica: 2,
};

fn init_ends<D: Disk>(
    alloc: Global,
    disks: &mut Vec<Pair<D>>,
    ended: Status,
) -> Result<bool, Fail> {
    let call = Call {
        words: "ficus init --members 2 vol",
        lines: "",
        ended,
    };
    ends_so(alloc, &call, disks)
}

#[test]
fn a_volume_that_was_made_in_part_is_occupied(rt: HostRuntime) -> Result<(), Fail> {
    for &(fails, ended) in UNMADE {
        let mut disks = failing_pairs(rt.alloc(), 2, fails)?;
        let so = init_ends(rt.alloc(), &mut disks, FAULT_AT_2)?;
        assert!(rt; so, "{fails}");
        let again = init_ends(rt.alloc(), &mut disks, ended)?;
        assert!(rt; again, "{fails}");
    }
    Ok(())
}

// A restart of which a call failed, and one of which none did.
const NOT_RESTARTED: &str = "restart 1
    no store
1 tree
    no down
restart 1
    ok
1 tree
    ok 0";

const RESTARTED: &str = "restart 1
    ok
1 tree
    ok 0";

fn replay_ends<D: Disk>(
    alloc: Global,
    disks: &mut Vec<Pair<D>>,
    lines: &str,
) -> Result<bool, Fail> {
    let call = Call {
        words: "ficus replay --members 2",
        lines,
        ended: DONE,
    };
    ends_so(alloc, &call, disks)
}

// How many calls a restart makes of this disk of replica 1, each of which may fail; or none, where something else comes
// of it.
fn restart_calls(alloc: Global, disk: u8, before: u8) -> Result<Option<u32>, Fail> {
    let before = u32::from(before);
    for call in 1..=20 {
        let mut disks = failing_pairs(alloc, disk, before + call)?;
        if replay_ends(alloc, &mut disks, NOT_RESTARTED)? {
            continue;
        }
        let mut disks = failing_pairs(alloc, disk, before + call)?;
        let is_done = replay_ends(alloc, &mut disks, RESTARTED)?;
        return Ok(if is_done { Some(call - 1) } else { None });
    }
    Ok(None)
}

#[test]
fn each_call_of_a_restart_may_fail(rt: HostRuntime) -> Result<(), Fail> {
    for disk in 0..2u8 {
        let calls = restart_calls(rt.alloc(), disk, CALLS[usize::from(disk)])?;
        assert!(rt; calls.is_some_and(|calls| calls > 2), "{disk} {calls:?}");
    }
    Ok(())
}
