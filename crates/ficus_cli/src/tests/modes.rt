// What the words give a mode: limits of a volume, and the number of a script.
use crate::tests::calls::{Call, DONE, end, ends_so};
use crate::tests::disks::fused_pairs;
use ficus_outside::{MemSink, MemSource};
use std::alloc::Global;
use std::test::Fail;

const CALLS: &[Call] = &[
    Call {
        words: "ficus replay --members 2 --ids 2",
        lines: "1 mkdir /a
    ok 1.1
1 mkdir /b
    ok 1.2
1 mkdir /c
    no spent
2 mkdir /c
    ok 2.1",
        ended: DONE,
    },
    Call {
        words: "ficus --bytes=5 --members=2 replay",
        lines: r#"1 create /f plain
    ok 1.1
1 write /f "12345"
    ok
1 write /f "6"
    no quota
1 write /f ""
    ok"#,
        ended: DONE,
    },
    Call {
        words: "ficus gen --members 2 --seed 1 --steps 3",
        lines: "    lines 8
    ok 8
    no 0
    events 14
    replica 1 live 5 dead 0 objects 5
    replica 2 live 5 dead 0 objects 5",
        ended: DONE,
    },
];

#[test]
fn what_the_words_give_holds(rt: HostRuntime) -> Result<(), Fail> {
    for call in CALLS {
        let so = ends_so(rt.alloc(), call, &mut fused_pairs(rt.alloc())?)?;
        assert!(rt; so, "{}", call.words);
    }
    Ok(())
}

// What a call without a script puts.
fn put_by(alloc: Global, words: &str) -> Result<Vec<u8>, Fail> {
    let mut input = MemSource::new(Vec::new(alloc), Vec::new(alloc));
    let mut output = MemSink::new(alloc, Vec::new(alloc))?;
    end(
        alloc,
        words,
        &mut input,
        &mut output,
        &mut fused_pairs(alloc)?,
    )?;
    Ok(output.written().to_vec(alloc)?)
}

const OF_EMPTY_DISKS: &[u8] = b"replica 1 empty
replica 2 empty
replica 3 empty
replica 4 empty
replica 5 empty
replica 6 empty
replica 7 empty
replica 8 empty
";

#[test]
fn empty_disks_are_told_as_empty(rt: HostRuntime) -> Result<(), Fail> {
    let lines = put_by(rt.alloc(), "ficus check vol")?;
    assert!(rt; lines.as_slice() == OF_EMPTY_DISKS);
    Ok(())
}

const LONGEST: &str = "ficus gen --members 8 --seed 7 --steps 5000";

#[test]
fn a_number_gives_the_same_summary_again(rt: HostRuntime) -> Result<(), Fail> {
    let summary = put_by(rt.alloc(), LONGEST)?;
    let again = put_by(rt.alloc(), LONGEST)?;
    assert!(rt; summary.starts_with(b"lines 5011\n"));
    assert!(rt; summary == again);
    Ok(())
}
