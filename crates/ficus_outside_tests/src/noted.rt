// An output over a system that tells what it is asked.
use crate::answers::puts_all;
use crate::noting::{Note, Noting};
use crate::system::Turn;
use ficus_faults::Failed;
use ficus_outside::{Output, WriterSink};
use std::alloc::Global;
use std::process::Abort;
use std::test::Fail;

/// What each call of the system does, what each put of a piece answers, and what the system was asked to print and how
/// many bytes of that it took.
#[derive(Drop)]
struct Row {
    turns: &'static [Turn],
    puts: &'static [(&'static str, Result<usize, Failed>)],
    asked: &'static [(&'static str, Option<usize>)],
}

const ROWS: [Row; 6] = [
    Row {
        turns: &[],
        puts: &[("abcd", Ok(4)), ("", Ok(0)), ("e", Ok(1))],
        asked: &[("abcd", Some(4)), ("", Some(0)), ("e", Some(1))],
    },
    // A short write is told as one.
    Row {
        turns: &[Turn::Moves(3), Turn::Moves(0)],
        puts: &[("abcd", Ok(3)), ("d", Err(Failed)), ("d", Ok(1))],
        asked: &[("abcd", Some(3)), ("d", Some(0)), ("d", Some(1))],
    },
    Row {
        turns: &[Turn::Fails, Turn::Moves(9), Turn::Fails],
        puts: &[("ab", Err(Failed)), ("ab", Ok(2)), ("", Err(Failed))],
        asked: &[("ab", None), ("ab", Some(2)), ("", None)],
    },
    // An interrupted write is tried again, with all the bytes.
    Row {
        turns: &[Turn::Stops, Turn::Stops, Turn::Moves(1)],
        puts: &[("ab", Ok(1)), ("b", Ok(1))],
        asked: &[("ab", None), ("ab", None), ("ab", Some(1)), ("b", Some(1))],
    },
    // A write to a closed pipe, and one that would wait, fail and aren't tried again.
    Row {
        turns: &[Turn::Breaks, Turn::Blocks],
        puts: &[("ab", Err(Failed)), ("ab", Err(Failed)), ("ab", Ok(2))],
        asked: &[("ab", None), ("ab", None), ("ab", Some(2))],
    },
    Row {
        turns: &[],
        puts: &[],
        asked: &[],
    },
];

// Whether the notes are of these calls.
fn are(notes: &[Note], asked: &[(&str, Option<usize>)]) -> bool {
    if notes.len() != asked.len() {
        return false;
    }
    for (note, (bytes, taken)) in notes.iter().zip(asked) {
        if note.bytes.as_slice() != bytes.as_bytes() || note.taken != *taken {
            return false;
        }
    }
    true
}

// Whether a sink over the system answers as the row says, and asks of the system what the row says.
fn asks<R: Abort + Drop>(rt: R, alloc: Global, row: &Row) -> bool {
    let system = Noting::new(rt, alloc, row.turns);
    let mut sink = WriterSink::over(Output::over(system));
    let is_answered = puts_all(&mut sink, row.puts);
    let notes = sink.into_inner().into_inner().into_notes();
    is_answered && are(&notes, row.asked)
}

#[test]
fn a_sink_asks_once_for_each_piece_and_whole(rt: HostRuntime) -> Result<(), Fail> {
    for (row, asked) in ROWS.iter().enumerate() {
        let is = asks(rt, rt.alloc(), asked);
        assert!(rt; is, "row {row}");
    }
    Ok(())
}
