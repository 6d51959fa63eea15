// Words, and the mode for which they ask.
use crate::member_modes;
use ficus_words::{Mode, Size, WordsFault, read_member_words, read_words};
use std::alloc::{AllocError, Global};
use std::test::Fail;

/// A mode, as `shown` shows it, and lines of which each asks for it: words with one space between each two.
#[derive(Drop)]
pub(crate) struct Row {
    pub(crate) mode: &'static str,
    pub(crate) lines: &'static [&'static str],
}

const ROWS: [Row; 21] = [
    Row {
        mode: "replay 2 100000 4194304",
        lines: &[
            "ficus replay --members 2",
            "ficus --members 2 replay",
            "ficus replay --members=2",
            "ficus --members=2 -- replay",
            "ficus replay --members=2 --ids=100000 --bytes=4194304",
            " replay --members 2",
            "--help replay --members 2",
        ],
    },
    Row {
        mode: "replay 8 1 0",
        lines: &["ficus --bytes 0 --ids=1 replay --members 8"],
    },
    Row {
        mode: "replay 3 2 5",
        lines: &["ficus replay --members 3 --ids 2 --bytes 5"],
    },
    Row {
        mode: "init 3 100000 4194304 vol",
        lines: &["ficus init --members 3 vol"],
    },
    Row {
        mode: "init 3 7 9 vol",
        lines: &["ficus init vol --ids=7 --members 3 --bytes 9"],
    },
    Row {
        mode: "init 3 100000 4194304 --ids",
        lines: &["ficus --members 3 -- init --ids"],
    },
    Row {
        mode: "run vol",
        lines: &["ficus run vol"],
    },
    Row {
        mode: "run -",
        lines: &["ficus run -"],
    },
    Row {
        mode: "run -x",
        lines: &["ficus run -- -x"],
    },
    Row {
        mode: "run --help",
        lines: &["ficus -- run --help"],
    },
    Row {
        mode: "run --",
        lines: &["ficus run -- --"],
    },
    Row {
        mode: "run a=b",
        lines: &["ficus run a=b"],
    },
    Row {
        mode: "check vol",
        lines: &["ficus check vol", "ficus check -- vol"],
    },
    Row {
        mode: "check run",
        lines: &["ficus check run"],
    },
    Row {
        mode: "gen 2 1 3",
        lines: &["ficus gen --members 2 --seed 1 --steps 3"],
    },
    Row {
        mode: "gen 8 0 0",
        lines: &["ficus --steps=0 --seed=0 gen --members=8"],
    },
    Row {
        mode: "gen 8 2147483647 5000",
        lines: &["ficus gen --members 8 --seed 2147483647 --steps 5000"],
    },
    Row {
        mode: "volumes 2 100000 4194304 over 4",
        lines: &[
            "ficus volumes --members 2 --volumes 4",
            "ficus --volumes=4 volumes --members=2",
        ],
    },
    Row {
        mode: "volumes 3 7 9 over 1",
        lines: &["ficus volumes --volumes 1 --ids=7 --members 3 --bytes 9"],
    },
    Row {
        mode: "init 2 100000 4194304 replay",
        lines: &["ficus init --members 2 replay"],
    },
    Row {
        mode: "usage",
        lines: &[
            "ficus run --",
            "",
            "replay --members 2",
            "ficus Replay --members 2",
            "ficus frob --members 2",
            "ficus",
            "ficus ",
            "ficus --",
            "ficus --help",
            "ficus -h",
            "ficus --version",
            "ficus -V",
            "ficus help",
            "ficus help replay",
            "ficus replay --help",
            "ficus replay --members 2 --help",
            "ficus replay",
            "ficus replay --members",
            "ficus replay --members=",
            "ficus replay --members 1",
            "ficus replay --members 9",
            "ficus replay --members 02",
            "ficus replay --members +2",
            "ficus replay --members -2",
            "ficus replay --members 2.0",
            "ficus replay --members 258",
            "ficus replay --members 4294967298",
            "ficus replay --members 18446744073709551618",
            "ficus replay --members 2 --members 2",
            "ficus replay --members=2 --members 3",
            "ficus replay --member 2",
            "ficus replay --memberss 2",
            "ficus replay --Members 2",
            "ficus replay -members 2",
            "ficus replay -m 2",
            "ficus replay --members -- 2",
            "ficus replay --members --ids 2",
            "ficus replay --members  2",
            "ficus replay --members 2 vol",
            "ficus replay --members 2 ",
            "ficus replay --members 2 --seed 1",
            "ficus replay --members 2 --ids 0",
            "ficus replay --members 2 --ids 100001",
            "ficus replay --members 2 --bytes 4194305",
            "ficus replay --=2",
            "ficus init --members 2",
            "ficus init vol",
            "ficus init --members 2 ",
            "ficus init --members 2 vol --steps 1",
            "ficus run",
            "ficus run ",
            "ficus run vol vol",
            "ficus run vol --members 2",
            "ficus run vol --ids 2",
            "ficus check",
            "ficus check ",
            "ficus check vol vol",
            "ficus check vol --members 2",
            "ficus check vol --volumes 1",
            "ficus check vol --seed 1",
            "ficus run -x",
            "ficus gen --members 2 --seed 1",
            "ficus gen --members 2 --steps 1",
            "ficus gen --seed 1 --steps 1",
            "ficus gen --members 2 --seed 2147483648 --steps 1",
            "ficus gen --members 2 --seed 1 --steps 5001",
            "ficus gen --members 2 --seed -1 --steps 1",
            "ficus gen --members 2 --seed 1 --steps 1 vol",
            "ficus gen --members 2 --seed 1 --steps 1 --ids 5",
            "ficus gen --members 2 --seed 1 --steps 1 --bytes 5",
            "ficus gen --members 2 --seed 1 --steps 1 --seed 1",
            "ficus gen --members 2 --seed 1 --steps 1 --volumes 1",
            "ficus replay --members 2 --volumes 1",
            "ficus init --members 2 --volumes 1 vol",
            "ficus run vol --volumes 1",
            "ficus volumes --members 2",
            "ficus volumes --volumes 2",
            "ficus volumes --members 2 --volumes 0",
            "ficus volumes --members 2 --volumes 5",
            "ficus volumes --members 2 --volumes 02",
            "ficus volumes --members 2 --volumes 2 vol",
            "ficus volumes --members 2 --volumes 2 --seed 1",
            "ficus volumes --members 2 --volumes 2 --volumes 2",
            "ficus run vol --replica 1",
            "ficus run vol --tag 00000000000000000000000000000000",
            "ficus check vol --replica 1",
            "ficus replay --members 2 --replica 1",
            "ficus volumes --members 2 --volumes 2 --replica 1",
            "ficus gen --members 2 --seed 1 --steps 3 --replica 1",
            "ficus gen --members 2 --seed 1 --steps 3 --tag 00000000000000000000000000000000",
        ],
    },
];

// The words of the line.
fn words_of(alloc: Global, line: &str) -> Result<Vec<String>, AllocError> {
    let mut words = Vec::new(alloc);
    for word in line.split(' ') {
        words.push(String::from_str(alloc, word)?)?;
    }
    Ok(words)
}

// What the words ask for, and what it carries.
fn shown(alloc: Global, words: &[String]) -> Result<String, AllocError> {
    match (read_words(alloc, words), read_member_words(alloc, words)) {
        (Ok(mode), Err(WordsFault::Usage)) => mode_shown(alloc, &mode),
        (Err(WordsFault::Usage), Ok(mode)) => member_modes::shown(alloc, &mode),
        (Err(WordsFault::Usage), Err(fault)) => format!(in alloc; "{fault}"),
        _ => String::from_str(alloc, "both, or memory"),
    }
}

fn mode_shown(alloc: Global, mode: &Mode) -> Result<String, AllocError> {
    match mode {
        Mode::Init { size, root } => {
            let size = size_shown(alloc, *size)?;
            let folder = root.text();
            format!(in alloc; "init {size} {folder}")
        }
        Mode::Run { root } => {
            let folder = root.text();
            format!(in alloc; "run {folder}")
        }
        Mode::Check { root } => {
            let folder = root.text();
            format!(in alloc; "check {folder}")
        }
        Mode::Replay { size } => {
            let size = size_shown(alloc, *size)?;
            format!(in alloc; "replay {size}")
        }
        Mode::Volumes { size, count } => {
            let size = size_shown(alloc, *size)?;
            format!(in alloc; "volumes {size} over {count}")
        }
        Mode::Gen {
            members,
            seed,
            steps,
        } => {
            let members = members.count();
            format!(in alloc; "gen {members} {seed} {steps}")
        }
    }
}

pub(crate) fn size_shown(alloc: Global, size: Size) -> Result<String, AllocError> {
    let members = size.members.count();
    let ids = size.ids;
    let bytes = size.bytes;
    format!(in alloc; "{members} {ids} {bytes}")
}

/// Whether the words of the line ask for this mode.
pub(crate) fn asks_for(alloc: Global, line: &str, mode: &str) -> Result<bool, AllocError> {
    let words = words_of(alloc, line)?;
    let text = shown(alloc, &words)?;
    Ok(text.as_str() == mode)
}

#[test]
fn words_ask_for_one_mode(rt: HostRuntime) -> Result<(), Fail> {
    for row in &ROWS {
        for line in row.lines {
            assert!(rt; asks_for(rt.alloc(), line, row.mode)?);
        }
    }
    Ok(())
}
