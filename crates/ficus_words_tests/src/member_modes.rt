// Words that ask for a mode of one member, or look so.
use crate::modes::{Row, asks_for, size_shown};
use ficus_words::MemberMode;
use std::alloc::{AllocError, Global};
use std::test::Fail;

// Rows as `modes` has them, of words of one member.
const ROWS: [Row; 9] = [
    Row {
        mode: "init 3 100000 4194304 1 00000000000000000000000000000000 vol",
        lines: &[
            "ficus init --members 3 --replica 1 vol",
            "ficus --replica=1 --members=3 -- init vol",
            "ficus init --members 3 --replica 1 --tag 00000000000000000000000000000000 vol",
        ],
    },
    Row {
        mode: "init 3 7 9 3 00112233445566778899aabbccddeeff vol",
        lines: &[
            "ficus init --members 3 --replica 3 --tag 00112233445566778899aabbccddeeff --ids 7 --bytes 9 vol",
            "ficus --tag=00112233445566778899AABBCCDDEEFF init vol --bytes=9 --ids=7 --replica=3 --members=3",
            "ficus init --members 3 --replica 3 --tag 00112233445566778899aAbBcCdDeEfF --ids 7 --bytes 9 vol",
        ],
    },
    Row {
        mode: "init 8 100000 4194304 8 ffffffffffffffffffffffffffffffff member",
        lines: &[
            "ficus init --members 8 --replica 8 --tag ffffffffffffffffffffffffffffffff member",
        ],
    },
    Row {
        mode: "init 2 100000 4194304 2 00000000000000000000000000000000 --tag",
        lines: &["ficus --members 2 --replica 2 -- init --tag"],
    },
    Row {
        mode: "member 1 vol",
        lines: &[
            "ficus member --replica 1 vol",
            "ficus member vol --replica=1",
            "ficus --replica 1 -- member vol",
        ],
    },
    Row {
        mode: "member 8 member",
        lines: &["ficus member --replica 8 member"],
    },
    Row {
        mode: "member 2 -",
        lines: &["ficus member --replica 2 -"],
    },
    Row {
        mode: "member 2 -x",
        lines: &["ficus member --replica 2 -- -x"],
    },
    Row {
        mode: "usage",
        lines: &[
            "ficus init --members 3 --replica 0 vol",
            "ficus init --members 3 --replica 4 vol",
            "ficus init --members 3 --replica 9 vol",
            "ficus init --members 8 --replica 9 vol",
            "ficus init --members 3 --replica 257 vol",
            "ficus init --members 3 --replica 01 vol",
            "ficus init --members 3 --replica +1 vol",
            "ficus init --members 3 --replica -1 vol",
            "ficus init --members 3 --replica= vol",
            "ficus init --members 3 --replica vol",
            "ficus init --members 3 --replica 1 --replica 1 vol",
            "ficus init --members 3 --replica 1 --replica 2 vol",
            "ficus init --members 1 --replica 1 vol",
            "ficus init --members 9 --replica 1 vol",
            "ficus init --replica 1 vol",
            "ficus init --members 3 --replica 1",
            "ficus init --members 3 --replica 1 ",
            "ficus init --members 3 --replica 1 vol vol",
            "ficus init --members 3 --replica 1 --volumes 1 vol",
            "ficus init --members 3 --replica 1 --seed 1 vol",
            "ficus init --members 3 --replica 1 --steps 1 vol",
            "ficus init --members 3 --replica 1 --ids 0 vol",
            "ficus init --members 3 --replica 1 --bytes 4194305 vol",
            "ficus init --members 3 --tag 00112233445566778899aabbccddeeff vol",
            "ficus init --members 3 --replica 1 --tag= vol",
            "ficus init --members 3 --replica 1 --tag 0 vol",
            "ficus init --members 3 --replica 1 --tag 00112233445566778899aabbccddeef vol",
            "ficus init --members 3 --replica 1 --tag 00112233445566778899aabbccddeeff0 vol",
            "ficus init --members 3 --replica 1 --tag 00112233445566778899aabbccddeefg vol",
            "ficus init --members 3 --replica 1 --tag 0x112233445566778899aabbccddeeff vol",
            "ficus init --members=3 --replica=1 --tag=00000000000000000000000000000000 --tag=0 vol",
            "ficus Member --replica 1 vol",
            "ficus members --replica 1 vol",
            "ficus member vol",
            "ficus member 1 vol",
            "ficus member --replica 1",
            "ficus member --replica 1 ",
            "ficus member --replica 0 vol",
            "ficus member --replica 9 vol",
            "ficus member --replica 1 vol vol",
            "ficus member --replica 1 --members 3 vol",
            "ficus member --replica 1 --ids 7 vol",
            "ficus member --replica 1 --bytes 9 vol",
            "ficus member --replica 1 --volumes 1 vol",
            "ficus member --replica 1 --seed 1 vol",
            "ficus member --replica 1 --steps 1 vol",
            "ficus member --replica 1 --tag 00000000000000000000000000000000 vol",
            "ficus run --replica 1 vol",
            "ficus check --replica 1 vol",
            "ficus replay --members 3 --replica 1",
            "ficus volumes --members 3 --volumes 2 --replica 1",
            "ficus gen --members 3 --seed 1 --steps 1 --replica 1",
        ],
    },
];

/// What the mode is, and what it carries.
pub(crate) fn shown(alloc: Global, mode: &MemberMode) -> Result<String, AllocError> {
    match mode {
        MemberMode::Init {
            size,
            replica,
            tag,
            root,
        } => {
            let size = size_shown(alloc, *size)?;
            let text = tag.text();
            let tag = str::from_utf8(&text).unwrap_or("");
            let folder = root.text();
            format!(in alloc; "init {size} {replica} {tag} {folder}")
        }
        MemberMode::Run { replica, root } => {
            let folder = root.text();
            format!(in alloc; "member {replica} {folder}")
        }
    }
}

#[test]
fn words_ask_for_one_mode_of_a_member(rt: HostRuntime) -> Result<(), Fail> {
    for row in &ROWS {
        for line in row.lines {
            assert!(rt; asks_for(rt.alloc(), line, row.mode)?);
        }
    }
    Ok(())
}
