// A save that a fuse stops, and what the restart finds of it.
use crate::tests::calls::{Call, DONE, ends_so};
use crate::tests::disks::fused_pairs;
use std::test::Fail;

/// What becomes of a save: how the command that saves is answered, and the looks before the restart and after it.
struct Outcome {
    saved: &'static str,
    shown: &'static str,
    found: &'static str,
}

const THERE: &str = "ok 1
    f 1.1 plain";

const SAVED: Outcome = Outcome {
    saved: "ok 1.1",
    shown: THERE,
    found: THERE,
};

const FOUND: Outcome = Outcome {
    saved: "no store",
    shown: "no down",
    found: THERE,
};

const LOST: Outcome = Outcome {
    saved: "no store",
    shown: "no down",
    found: "ok 0",
};

// What becomes of the save of a record, of which so many calls pass, with each pick. It makes four.
const STOPS: [[Outcome; 4]; 5] = [
    [LOST, LOST, LOST, LOST],
    [LOST, LOST, LOST, LOST],
    [LOST, FOUND, FOUND, LOST],
    [LOST, FOUND, FOUND, LOST],
    [SAVED, SAVED, SAVED, SAVED],
];

#[test]
fn a_stopped_save_is_found_where_its_gate_is_open(rt: HostRuntime) -> Result<(), Fail> {
    for (calls, picks) in STOPS.iter().enumerate() {
        for (pick, outcome) in picks.iter().enumerate() {
            let saved = outcome.saved;
            let shown = outcome.shown;
            let found = outcome.found;
            let lines = format!(in rt.alloc();
                "stop 1 {calls} {pick}
    ok
1 create /f plain
    {saved}
1 ls /
    {shown}
restart 1
    ok
1 ls /
    {found}
pull 2 1
    ok
2 ls /
    {found}"
            )?;
            let call = Call {
                words: "ficus replay --members 2",
                lines: lines.as_str(),
                ended: DONE,
            };
            let so = ends_so(rt.alloc(), &call, &mut fused_pairs(rt.alloc())?)?;
            assert!(rt; so, "{calls} {pick}");
        }
    }
    Ok(())
}
