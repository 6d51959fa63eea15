// How names are spelled, and which are a file's.
use ficus_mailbox::{MessageName, file_name};
use std::test::Fail;

const NAMES: [(MessageName, &str); 4] = [
    (
        MessageName::Ask {
            from: 2,
            to: 1,
            number: 17,
        },
        "ask-2-1-17",
    ),
    (
        MessageName::Ask {
            from: 8,
            to: 7,
            number: u64::MAX,
        },
        "ask-8-7-18446744073709551615",
    ),
    (
        MessageName::Piece {
            from: 1,
            to: 2,
            number: 1,
            state: 3,
            index: 0,
        },
        "piece-1-2-1-3-0",
    ),
    (
        MessageName::Piece {
            from: 1,
            to: 2,
            number: u64::MAX,
            state: u64::MAX,
            index: 262_143,
        },
        "piece-1-2-18446744073709551615-18446744073709551615-262143",
    ),
];

#[test]
fn names_are_spelled(rt: HostRuntime) -> Result<(), Fail> {
    for (name, text) in &NAMES {
        assert!(rt; name.text().as_str() == *text, "{text}");
    }
    Ok(())
}

const FILES: [(&[u8], bool); 10] = [
    (b"ask-2-1-17", true),
    (b".hidden", true),
    (b"...", true),
    (b"", false),
    (b".", false),
    (b"..", false),
    (b"../ask-2-1-17", false),
    (b"/etc/passwd", false),
    (b"ask\0", false),
    (b"ask\xff", false),
];

#[test]
fn files_have_names(rt: HostRuntime) -> Result<(), Fail> {
    for (row, (bytes, is)) in FILES.iter().enumerate() {
        assert!(rt; file_name(bytes).is_some() == *is, "row {row}");
    }
    assert!(rt; file_name(&[b'a'; 255]).is_some());
    assert!(rt; file_name(&[b'a'; 256]).is_none());
    Ok(())
}
