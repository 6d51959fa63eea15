// Messages that are written out, and all that differ from them in a byte or in their length.
use crate::variants::{Grammar, reads_variants};
use ficus_formats::take_u32;
use ficus_ids::{Members, Memory};
use ficus_wire::{
    Letter, Message, PIECE_LIMIT, PIECE_SIZE, PieceHead, Route, WireFault, decode, encode,
    encode_piece, read_letter,
};
use std::alloc::Global;
use std::test::Fail;

// The message of `ask 1 2` as the first event of a fresh replica 1.
const ASK: [u8; 12] = [2, 1, 1, 2, 0, 0, 0, 0, 0, 0, 0, 1];

// The one piece of the answer of a fresh replica 2.
const PIECE: [u8; 36] = [
    2, 3, 2, 1, 0, 0, 0, 0, 0, 0, 0, 1, 0, 0, 0, 0, 0, 0, 0, 0, 0, 0, 0, 1, 0, 0, 0, 0, 0, 0, 0, 0,
    0, 0, 0, 0,
];

const REFUSED: [&[u8]; 9] = [
    // Version 3, `to` 1, `to` 3, a byte more, `from` 0.
    &[3, 1, 1, 2, 0, 0, 0, 0, 0, 0, 0, 1],
    &[2, 1, 1, 1, 0, 0, 0, 0, 0, 0, 0, 1],
    &[2, 1, 1, 3, 0, 0, 0, 0, 0, 0, 0, 1],
    &[2, 1, 1, 2, 0, 0, 0, 0, 0, 0, 0, 1, 0],
    &[2, 1, 0, 2, 0, 0, 0, 0, 0, 0, 0, 1],
    // Version 1: an ask, and an answer with its tables; and the kind of such an answer.
    &[1, 1, 1, 2, 0, 0, 0, 0, 0, 0, 0, 1],
    &[1, 2, 2, 1, 0, 0, 0, 0, 0, 0, 0, 1, 0, 0, 0, 0, 0, 0, 0, 0],
    &[2, 2, 2, 1, 0, 0, 0, 0, 0, 0, 0, 1, 0, 0, 0, 0, 0, 0, 0, 0],
    // A piece without bytes.
    &[
        2, 3, 2, 1, 0, 0, 0, 0, 0, 0, 0, 1, 0, 0, 0, 0, 0, 0, 0, 0, 0, 0, 0, 1, 0, 0, 0, 0,
    ],
];

// Whether what stands behind the route is that of a piece, read off the grammar.
fn is_piece(rest: &[u8]) -> bool {
    let (Some(pieces), Some(index)) = (take_u32(rest, 8), take_u32(rest, 12)) else {
        return false;
    };
    let size = rest.len().saturating_sub(16);
    let is_last = index == pieces.saturating_sub(1);
    let is_sized = size == 4_096 || is_last && size > 0 && size < 4_096;
    index < pieces && pieces <= 262_144 && is_sized
}

// Whether the bytes are a message between two members, read off the grammar.
fn is_message(bytes: &[u8]) -> bool {
    if bytes.len() < 12 {
        return false;
    }
    let (front, rest) = bytes.split_at(12);
    let is_ask = front[1] == 1 && rest.is_empty();
    let is_routed = front[2] == 1 && front[3] == 2 || front[2] == 2 && front[3] == 1;
    front[0] == 2 && is_routed && (is_ask || front[1] == 3 && is_piece(rest))
}

/// Messages between so many members.
#[derive(Drop)]
struct Messages {
    members: Members,
}

impl Grammar for Messages {
    fn reads_exactly(&self, alloc: Global, bytes: &[u8]) -> Result<bool, Memory> {
        match decode(alloc, bytes, self.members) {
            Ok(message) => {
                let again = encode(alloc, &message, self.members)?;
                Ok(is_message(bytes) && again.as_slice() == bytes)
            }
            Err(WireFault::NotMessage) => Ok(!is_message(bytes)),
            Err(WireFault::Memory) => Err(Memory),
        }
    }
}

// Whether the bytes are refused.
fn is_refused(alloc: Global, bytes: &[u8], members: Members) -> bool {
    matches!(decode(alloc, bytes, members), Err(WireFault::NotMessage))
}

#[test]
fn reads_the_grammar_and_nothing_else(rt: HostRuntime) -> Result<(), Fail> {
    let members = Members::new(2).ok_or("two")?;
    let messages = Messages { members };
    assert!(rt; reads_variants(&messages, rt.alloc(), &ASK)?);
    assert!(rt; reads_variants(&messages, rt.alloc(), &PIECE)?);
    for bytes in REFUSED {
        assert!(rt; is_refused(rt.alloc(), bytes, members));
    }
    Ok(())
}

// Whether it is the ask that is written out above.
fn is_ask(message: &Message) -> bool {
    matches!(
        message,
        Message::Ask {
            from: 1,
            to: 2,
            number: 1
        }
    )
}

// Whether it is the answer, in one piece.
fn is_answer(message: &Message) -> bool {
    match message {
        Message::Piece {
            from: 2,
            to: 1,
            number: 1,
            state: 0,
            pieces: 1,
            index: 0,
            bytes,
        } => bytes.items() == [0; 8].as_slice(),
        _ => false,
    }
}

#[test]
fn gives_what_is_spelled(rt: HostRuntime) -> Result<(), Fail> {
    let members = Members::new(2).ok_or("two")?;
    assert!(rt; decode(rt.alloc(), &ASK, members).is_ok_and(|message| is_ask(&message)));
    assert!(rt; decode(rt.alloc(), &PIECE, members).is_ok_and(|message| is_answer(&message)));
    Ok(())
}

/// How many pieces there are, which of them it is, and how many bytes it has.
type Place = (u32, u32, usize);

// Such that are pieces, and such that aren't.
const PIECES: [Place; 7] = [
    (1, 0, 1),
    (1, 0, PIECE_SIZE),
    (2, 0, PIECE_SIZE),
    (2, 1, 1),
    (2, 1, PIECE_SIZE),
    (PIECE_LIMIT, 0, PIECE_SIZE),
    (PIECE_LIMIT, PIECE_LIMIT - 1, 7),
];

const NO_PIECES: [Place; 9] = [
    (1, 0, 0),
    (1, 0, PIECE_SIZE + 1),
    (1, 1, 1),
    (2, 0, PIECE_SIZE - 1),
    (2, 1, PIECE_SIZE + 1),
    (2, 2, 1),
    (0, 0, 1),
    (PIECE_LIMIT + 1, 0, PIECE_SIZE),
    (PIECE_LIMIT + 1, PIECE_LIMIT, 7),
];

// Whether the letter is a piece with this in front of these bytes.
fn is_piece_of(letter: Letter<'_>, head: PieceHead, piece: &[u8]) -> bool {
    match letter {
        Letter::Piece(read, bytes) => {
            read.route.number == head.route.number
                && read.state == head.state
                && read.pieces == head.pieces
                && read.index == head.index
                && bytes == piece
        }
        Letter::Ask(_) => false,
    }
}

// Whether the piece is read as what it is, or as no message where it is none.
fn reads(alloc: Global, members: Members, place: Place, is: bool) -> Result<bool, Memory> {
    let (pieces, index, size) = place;
    let piece = vec![in alloc; 9u8; size]?;
    let route = Route {
        from: 1,
        to: 2,
        number: 5,
    };
    let head = PieceHead {
        route,
        state: 6,
        pieces,
        index,
    };
    let bytes = encode_piece(alloc, head, &piece)?;
    match read_letter(&bytes, members) {
        Some(letter) => Ok(is && is_piece_of(letter, head, &piece)),
        None => Ok(!is),
    }
}

#[test]
fn pieces_have_their_sizes(rt: HostRuntime) -> Result<(), Fail> {
    let members = Members::new(2).ok_or("two")?;
    for place in PIECES {
        assert!(rt; reads(rt.alloc(), members, place, true)?);
    }
    for place in NO_PIECES {
        assert!(rt; reads(rt.alloc(), members, place, false)?);
    }
    Ok(())
}
