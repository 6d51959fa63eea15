// Sources and sinks over the standard streams.
use crate::answers::puts_all;
use crate::system::{Screen, Turn, Typed};
use ficus_faults::Failed;
use ficus_outside::{Sink, Source, StdSink, StdSource};
use std::alloc::{AllocError, Global};
use std::cell::{Cell, RefCell};
use std::test::Fail;

const TEXT: &[u8] = b"abcdefghij";

/// What each call of a source's reader does, and what each call of the source answers.
#[derive(Drop)]
struct Taken {
    turns: &'static [Turn],
    answers: &'static [Result<usize, Failed>],
}

const TAKEN: [Taken; 7] = [
    Taken {
        turns: &[],
        answers: &[Ok(4), Ok(4), Ok(2), Ok(0), Ok(0)],
    },
    Taken {
        turns: &[Turn::Fails],
        answers: &[Err(Failed), Ok(4), Ok(4), Ok(2), Ok(0)],
    },
    Taken {
        turns: &[Turn::Moves(4), Turn::Fails, Turn::Fails, Turn::Moves(1)],
        answers: &[Ok(4), Err(Failed), Err(Failed), Ok(1), Ok(4), Ok(1), Ok(0)],
    },
    Taken {
        turns: &[Turn::Moves(4), Turn::Moves(4), Turn::Fails],
        answers: &[Ok(4), Ok(4), Err(Failed), Ok(2), Ok(0)],
    },
    Taken {
        turns: &[Turn::Moves(4), Turn::Moves(4), Turn::Moves(4), Turn::Fails],
        answers: &[Ok(4), Ok(4), Ok(2), Err(Failed), Ok(0)],
    },
    Taken {
        turns: &[Turn::Stops, Turn::Stops, Turn::Moves(3), Turn::Stops],
        answers: &[Ok(3), Ok(4), Ok(3), Ok(0)],
    },
    Taken {
        turns: &[Turn::Blocks, Turn::Moves(4), Turn::Breaks],
        answers: &[Err(Failed), Ok(4), Err(Failed), Ok(4), Ok(2), Ok(0)],
    },
];

// Whether the next call of the source answers so. What it gives is added to what was given.
fn takes(
    source: &mut StdSource<Typed>,
    answer: Result<usize, Failed>,
    given: &mut Vec<u8>,
) -> Result<bool, AllocError> {
    let mut piece = [0; 4];
    let taken = source.take(&mut piece);
    given.extend_from_slice(&piece[..taken.unwrap_or(0)])?;
    Ok(taken == answer)
}

// Whether the calls of the source answer so.
fn takes_all(
    source: &mut StdSource<Typed>,
    answers: &[Result<usize, Failed>],
    given: &mut Vec<u8>,
) -> Result<bool, AllocError> {
    for answer in answers {
        if !takes(source, *answer, given)? {
            return Ok(false);
        }
    }
    Ok(true)
}

// Whether the source answers as the row says, and gives the text.
fn gives(alloc: Global, row: &Taken) -> Result<bool, AllocError> {
    let turns = row.turns;
    let mut source = StdSource::new(Typed { text: TEXT, turns });
    let mut given = Vec::new(alloc);
    let is_as_told = takes_all(&mut source, row.answers, &mut given)?;
    Ok(is_as_told && given.as_slice() == TEXT)
}

#[test]
fn a_source_gives_what_its_reader_gives(rt: HostRuntime) -> Result<(), Fail> {
    for (row, taken) in TAKEN.iter().enumerate() {
        let is = gives(rt.alloc(), taken)?;
        assert!(rt; is, "row {row}");
    }
    Ok(())
}

/// What each call of a sink's runtime does, what each put of a piece answers, and what is then shown.
#[derive(Drop)]
struct Put {
    turns: &'static [Turn],
    puts: &'static [(&'static str, Result<usize, Failed>)],
    shown: &'static str,
}

const PUT: [Put; 6] = [
    Put {
        turns: &[],
        puts: &[("abcd", Ok(4)), ("", Ok(0)), ("e", Ok(1))],
        shown: "abcde",
    },
    Put {
        turns: &[Turn::Fails, Turn::Moves(3), Turn::Fails],
        puts: &[
            ("abcd", Err(Failed)),
            ("abcd", Ok(3)),
            ("d", Err(Failed)),
            ("d", Ok(1)),
        ],
        shown: "abcd",
    },
    Put {
        turns: &[Turn::Moves(0), Turn::Moves(0), Turn::Moves(1)],
        puts: &[("a", Err(Failed)), ("", Ok(0)), ("ab", Ok(1))],
        shown: "a",
    },
    Put {
        turns: &[Turn::Fails],
        puts: &[("", Err(Failed)), ("", Ok(0))],
        shown: "",
    },
    Put {
        turns: &[Turn::Stops, Turn::Moves(2), Turn::Stops, Turn::Stops],
        puts: &[("abc", Ok(2)), ("c", Ok(1))],
        shown: "abc",
    },
    Put {
        turns: &[Turn::Breaks, Turn::Moves(1), Turn::Blocks],
        puts: &[
            ("ab", Err(Failed)),
            ("ab", Ok(1)),
            ("b", Err(Failed)),
            ("b", Ok(1)),
        ],
        shown: "ab",
    },
];

// Whether a sink over the screen answers as the row says.
fn puts(screen: &Screen, row: &Put) -> bool {
    let mut sink = StdSink::new(screen);
    puts_all(&mut sink, row.puts)
}

// The same, and whether the screen then shows what the row says.
fn shows(alloc: Global, row: &Put) -> bool {
    let screen = Screen {
        shown: RefCell::new(Vec::new(alloc)),
        turns: Cell::new(row.turns),
    };
    puts(&screen, row) && screen.shown.into_inner().as_slice() == row.shown.as_bytes()
}

/// 5 MiB, which is more than an answer of the largest file has.
const LENGTH: usize = 5 * 1024 * 1024;

/// What the runtime's call does with a piece of 5 MiB, and what the put of it answers.
const LONG: [(&[Turn], Result<usize, Failed>); 6] = [
    (&[], Ok(LENGTH)),
    (&[Turn::Moves(65_537)], Ok(65_537)),
    (&[Turn::Moves(LENGTH - 1)], Ok(LENGTH - 1)),
    (&[Turn::Moves(0)], Err(Failed)),
    (&[Turn::Fails], Err(Failed)),
    (&[Turn::Breaks], Err(Failed)),
];

// Whether the put of the piece answers so, and the screen then shows as much of it.
fn shows_long(
    alloc: Global,
    turns: &'static [Turn],
    piece: &[u8],
    answer: Result<usize, Failed>,
) -> bool {
    let screen = Screen {
        shown: RefCell::new(Vec::new(alloc)),
        turns: Cell::new(turns),
    };
    let is_as_told = StdSink::new(&screen).put(piece) == answer;
    let shown = answer.unwrap_or(0).min(piece.len());
    is_as_told && screen.shown.into_inner().as_slice() == &piece[..shown]
}

#[test]
fn a_sink_takes_long_pieces(rt: HostRuntime) -> Result<(), Fail> {
    let mut piece = vec![in rt.alloc(); 0u8; LENGTH]?;
    for (place, byte) in piece.iter_mut().enumerate() {
        *byte = (place % 251) as u8;
    }
    for (row, (turns, answer)) in LONG.iter().enumerate() {
        let is = shows_long(rt.alloc(), turns, &piece, *answer);
        assert!(rt; is, "row {row}");
    }
    Ok(())
}

#[test]
fn a_sink_takes_what_its_runtime_takes(rt: HostRuntime) -> Result<(), Fail> {
    for (row, put) in PUT.iter().enumerate() {
        let is = shows(rt.alloc(), put);
        assert!(rt; is, "row {row}");
    }
    Ok(())
}
