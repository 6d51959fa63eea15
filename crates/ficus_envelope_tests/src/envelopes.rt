// What a message is behind the tag of its volume, and what is told of bytes that are none.
use ficus_envelope::{UnsealFault, name_of, seal, seal_spelled, unseal};
use ficus_ids::Members;
use ficus_tag::Tag;
use ficus_wire::Message;
use std::alloc::Global;

const TAG: &[u8] = b"00112233445566778899aabbccddeeff";

// The message of `ask 1 2` as the first event of a fresh replica 1.
const ASK: [u8; 28] = [
    0x00, 0x11, 0x22, 0x33, 0x44, 0x55, 0x66, 0x77, 0x88, 0x99, 0xaa, 0xbb, 0xcc, 0xdd, 0xee, 0xff,
    2, 1, 1, 2, 0, 0, 0, 0, 0, 0, 0, 1,
];

// The one piece of the answer of a fresh replica 2.
const PIECE: [u8; 52] = [
    0x00, 0x11, 0x22, 0x33, 0x44, 0x55, 0x66, 0x77, 0x88, 0x99, 0xaa, 0xbb, 0xcc, 0xdd, 0xee, 0xff,
    2, 3, 2, 1, 0, 0, 0, 0, 0, 0, 0, 1, 0, 0, 0, 0, 0, 0, 0, 0, 0, 0, 0, 1, 0, 0, 0, 0, 0, 0, 0, 0,
    0, 0, 0, 0,
];

const LONGER: [u8; 29] = [
    0x00, 0x11, 0x22, 0x33, 0x44, 0x55, 0x66, 0x77, 0x88, 0x99, 0xaa, 0xbb, 0xcc, 0xdd, 0xee, 0xff,
    2, 1, 1, 2, 0, 0, 0, 0, 0, 0, 0, 1, 0,
];

// What is unsealed, in short.
#[derive(Clone, Copy, PartialEq)]
enum Is {
    // From whom, to whom, and the number.
    Ask(u8, u8, u64),
    // The number, the state, and how many bytes.
    Piece(u64, u64, usize),
    Fault(UnsealFault),
}

const OTHER: Is = Is::Fault(UnsealFault::OtherVolume);

const NOT_MESSAGE: Is = Is::Fault(UnsealFault::NotMessage);

const UNSEALED: [(&[u8], &[u8], Is); 9] = [
    (TAG, &ASK, Is::Ask(1, 2, 1)),
    (TAG, &PIECE, Is::Piece(1, 0, 8)),
    (TAG, &LONGER, NOT_MESSAGE),
    // The first digit, the last, and all of another tag.
    (b"10112233445566778899aabbccddeeff", &ASK, OTHER),
    (b"00112233445566778899aabbccddeefe", &ASK, OTHER),
    (b"00000000000000000000000000000000", &ASK, OTHER),
    (b"00112233445566778899aabbccddeefe", &LONGER, OTHER),
    (b"00112233445566778899aabbccddeefe", b"", OTHER),
    (
        b"02010102000000000000000100000000",
        b"\x02\x01\x01\x02\0\0\0\0\0\0\0\x01",
        OTHER,
    ),
];

fn unsealed(alloc: Global, tag: &[u8], bytes: &[u8]) -> Is {
    let (Some(tag), Some(members)) = (Tag::read(tag), Members::new(2)) else {
        return Is::Fault(UnsealFault::Memory);
    };
    match unseal(alloc, tag, bytes, members) {
        Ok(Message::Ask { from, to, number }) => Is::Ask(from, to, number),
        Ok(
            Message::Piece {
                number,
                state,
                bytes,
                ..
            },
        ) => Is::Piece(number, state, bytes.items().len()),
        Err(fault) => Is::Fault(fault),
    }
}

// Whether these are the bytes of the message that is unsealed from them, and of its spelling, and it has this name.
fn is_sealed_as(alloc: Global, bytes: &[u8], name: &str) -> bool {
    let (Some(tag), Some(members)) = (Tag::read(TAG), Members::new(2)) else {
        return false;
    };
    let Ok(message) = unseal(alloc, tag, bytes, members) else {
        return false;
    };
    let Ok(sealed) = seal(alloc, tag, &message, members) else {
        return false;
    };
    let Ok(of_spelled) = seal_spelled(alloc, tag, bytes.strip_prefix(tag.bytes()).unwrap_or(b""))
    else {
        return false;
    };
    sealed.as_slice() == bytes
        && of_spelled.as_slice() == bytes
        && name_of(&message).text().as_str() == name
}

#[test]
fn messages_are_sealed(rt: HostRuntime) {
    assert!(rt; is_sealed_as(rt.alloc(), &ASK, "ask-1-2-1"));
    assert!(rt; is_sealed_as(rt.alloc(), &PIECE, "piece-2-1-1-0-0"));
}

#[test]
fn messages_are_unsealed(rt: HostRuntime) {
    for (row, (tag, bytes, is)) in UNSEALED.iter().enumerate() {
        assert!(rt; unsealed(rt.alloc(), tag, bytes) == *is, "row {row}");
    }
}

#[test]
fn what_is_cut_short_is_refused(rt: HostRuntime) {
    for size in 0..ASK.len() {
        let is = if size < 16 { OTHER } else { NOT_MESSAGE };
        assert!(rt;
            unsealed(rt.alloc(), TAG, &ASK[..size]) == is,
            "size {size}"
        );
    }
}
