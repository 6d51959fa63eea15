// Words and scripts that are refused, and sources and sinks that fail.
use crate::tests::calls::{Call, DONE, Ended, answers_of, ended_where, ends_so};
use crate::tests::disks::fused_pairs;
use ficus_opening::WorldFault;
use ficus_script::ScriptFault;
use ficus_top::Status;
use std::alloc::{AllocError, Global};
use std::test::Fail;

const REPLAY: &str = "ficus replay --members 2";

// Words that are refused, whatever the script is.
const NO_WORDS: &[&str] = &[
    "",
    "ficus",
    "ficus run",
    "ficus replay --members",
    "ficus replay --members 9",
    "ficus replay --members 2 vol",
    "ficus init --members 2",
    "ficus --help",
];

#[test]
fn words_of_no_mode_are_refused(rt: HostRuntime) -> Result<(), Fail> {
    for &words in NO_WORDS {
        let call = Call {
            words,
            lines: "1 frob /a",
            ended: Status { code: 1, ..DONE },
        };
        let so = ends_so(rt.alloc(), &call, &mut fused_pairs(rt.alloc())?)?;
        assert!(rt; so, "{words:?}");
    }
    Ok(())
}

// Scripts, and the number of the first line that is no command.
const BAD_LINES: &[(&str, u32)] = &[
    ("1 mkdir /a\n1 mkdir /b\n1 frob /a", 3),
    ("# a note\n\n1 mkdir /a\n1 ls\n1 frob /a", 4),
];

#[test]
fn the_first_bad_line_is_named(rt: HostRuntime) -> Result<(), Fail> {
    for &(lines, line) in BAD_LINES {
        let call = Call {
            words: REPLAY,
            lines,
            ended: Status {
                code: 2,
                line,
                ..DONE
            },
        };
        let so = ends_so(rt.alloc(), &call, &mut fused_pairs(rt.alloc())?)?;
        assert!(rt; so, "{lines:?}");
    }
    Ok(())
}

const FILE_CONFLICT: Call = Call {
    words: REPLAY,
    lines: r#"1 create /f plain
    ok 1.1
pull 2 1
    ok
1 write /f "a"
    ok
2 write /f "b"
    ok
pull 1 2
    ok
pull 2 1
    ok
1 read /f
    no conflict
1 write /f "c"
    no conflict
2 versions /f
    ok 2
    [1,1] "b"
    [2,0] "a"
1 resolve /f
    no declined
1 settle /f "ab"
    ok
1 versions /f
    ok 1
    [3,1] "ab""#,
    ended: DONE,
};

// How the call ends where these calls fail, and what it puts.
fn ended(alloc: Global, source_fails: u32, sink_fails: u32) -> Result<Ended, Fail> {
    let mut disks = fused_pairs(alloc)?;
    ended_where(alloc, &FILE_CONFLICT, source_fails, sink_fails, &mut disks)
}

// A script is taken in two calls: one for its bytes and one for its end.
#[test]
fn a_source_fails_at_each_call_in_turn(rt: HostRuntime) -> Result<(), Fail> {
    for call in 1..3u32 {
        let failed = ended(rt.alloc(), call, 0)?;
        assert!(rt; failed.status.code == 4, "{call}");
        assert!(rt; failed.output.written().is_empty(), "{call}");
    }
    Ok(())
}

// Each of the twelve answers is put in one call.
#[test]
fn a_sink_fails_at_each_call_in_turn(rt: HostRuntime) -> Result<(), Fail> {
    let whole = answers_of(rt.alloc(), FILE_CONFLICT.lines)?;
    for call in 1..13u32 {
        let failed = ended(rt.alloc(), 0, call)?;
        assert!(rt; failed.status.code == 5, "{call}");
        assert!(rt;
            whole.as_bytes().starts_with(failed.output.written()),
            "{call}"
        );
    }
    Ok(())
}

#[test]
fn what_fails_behind_the_last_call_is_nothing(rt: HostRuntime) -> Result<(), Fail> {
    let all = ended(rt.alloc(), 3, 13)?;
    let whole = answers_of(rt.alloc(), FILE_CONFLICT.lines)?;
    assert!(rt; all.status == DONE);
    assert!(rt; all.output.written() == whole.as_bytes());
    Ok(())
}

/// Why a script wasn't read, or why no volume was made or opened.
#[derive(Clone, Copy)]
enum Fault {
    Script(ScriptFault),
    World(WorldFault),
}

fn text_of(alloc: Global, fault: &Fault) -> Result<String, AllocError> {
    match fault {
        Fault::Script(fault) => fault.to_string(alloc),
        Fault::World(fault) => fault.to_string(alloc),
    }
}

fn has_text(alloc: Global, fault: &Fault, text: &str) -> Result<bool, Fail> {
    let found = text_of(alloc, fault)?;
    Ok(found.as_str() == text)
}

const FAULT_TEXTS: &[(Fault, &str)] = &[
    (Fault::Script(ScriptFault::BadLine(1)), "bad line 1"),
    (
        Fault::Script(ScriptFault::BadLine(1_048_577)),
        "bad line 1048577",
    ),
    (Fault::Script(ScriptFault::Memory), "memory"),
    (
        Fault::World(WorldFault::Occupied(8)),
        "replica 8 is occupied",
    ),
    (
        Fault::World(WorldFault::Store(1)),
        "store fault at replica 1",
    ),
    (Fault::World(WorldFault::Image(2)), "no image at replica 2"),
    (Fault::World(WorldFault::Memory), "memory"),
];

#[test]
fn faults_have_their_texts(rt: HostRuntime) -> Result<(), Fail> {
    for (fault, text) in FAULT_TEXTS {
        let has = has_text(rt.alloc(), fault, text)?;
        assert!(rt; has, "{text}");
    }
    Ok(())
}
