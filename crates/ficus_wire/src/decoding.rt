ghost use Rattle.std.specs.Prelude.{◌≡◌, ◌↔◌, ◌<◌, ◌∷◌, List, ℕ, IsTrue, IfErr, IfNone, IfOk, IfSome, IsErrOf, OnErr};
ghost use Rattle.ficus_formats.specs.Format.{Reads};
ghost use Rattle.ficus_formats.specs.Pieces.{HasPieceSize};
ghost use Rattle.ficus_wire.specs.Message.{route, head, message_of, message_bytes, FitsMessage, IsPiece, ReadsPiece, ReadsRoute, SpellPiece};
ghost use Rattle.ficus_wire.specs.declared.message.Message.{Message as MessageValue};

use crate::message::{PIECE_LIMIT, PieceHead, Route};
use crate::pieces::PIECE_SIZE;
use crate::{Letter, Message, WireFault};
use ficus_formats::{ReadFault, Reader};
use ficus_ids::{Listed, Members, Memory};
use std::alloc::Global;

// From whom to whom a message goes, two different members, and the number of its ask.
fn read_route(reader: &mut Reader<'_>, members: Members) -> Result<Route, ReadFault>
    ensures reads { Reads (route members) reader.old result reader.new }
    ensures unspelled { IfErr result (λ fault. fault ≡ ReadFault.Unspelled) }
{
    let from = reader.byte()?;
    let to = reader.byte()?;
    let number = reader.number64()?;
    if from == to || !members.has(from) || !members.has(to) {
        return Err(ReadFault::Unspelled);
    }
    Ok(Route { from, to, number })
}

// What stands behind the kind of an ask, from the first byte to the last.
fn read_ask(reader: Reader<'_>, members: Members) -> Option<Route>
    ensures { ReadsRoute members reader.entry result }
{
    let mut rest = reader;
    let way = read_route(&mut rest, members).ok()?;
    if rest.is_empty() { Some(way) } else { None }
}

// What stands between the kind of a piece and its bytes.
#[tactic(auto, using(crate::proofs::Messages::misplaced))]
fn read_head(reader: &mut Reader<'_>, members: Members) -> Result<PieceHead, ReadFault>
    ensures reads { Reads (head members) reader.old result reader.new }
    ensures unspelled { IfErr result (λ fault. fault ≡ ReadFault.Unspelled) }
{
    let route = read_route(reader, members)?;
    let state = reader.number64()?;
    let pieces = reader.number32()?;
    let index = reader.number32()?;
    if index >= pieces || pieces > PIECE_LIMIT {
        return Err(ReadFault::Unspelled);
    }
    Ok(PieceHead {
        route,
        state,
        pieces,
        index,
    })
}

// Whether the piece with this place has so many bytes.
fn has_piece_size(pieces: u32, index: u32, bytes: &[u8]) -> bool
    requires { index < pieces }
    ensures { IsTrue result ↔ HasPieceSize pieces index bytes.now }
{
    let is_last = index + 1 == pieces;
    bytes.len() == PIECE_SIZE || is_last && !bytes.is_empty() && bytes.len() < PIECE_SIZE
}

// What stands behind the kind of a piece, from the first byte to the last.
#[tactic(auto, using(crate::proofs::Messages::headless))]
fn read_piece(reader: Reader<'_>, members: Members) -> Option<(PieceHead, &[u8])>
    ensures { ReadsPiece members reader.entry result }
{
    let mut rest = reader;
    let head = read_head(&mut rest, members).ok()?;
    let bytes = rest.rest();
    if has_piece_size(head.pieces, head.index, bytes) {
        Some((head, bytes))
    } else {
        None
    }
}

// The kind of a message of version 2, and what stands behind it.
fn split_kind(bytes: &[u8]) -> Option<(u8, &[u8])>
    ensures some { IfSome result (λ split. bytes.now ≡ 2 ∷ split.0 ∷ split.1.now) }
    ensures none { IfNone result ((kind : ℕ) (rest : List ℕ) → bytes.now ≡ 2 ∷ kind ∷ rest → ⊥) }
{
    match bytes {
        [2, kind, rest @ ..] => Some((*kind, rest)),
        _ => None,
    }
}

/// The message between members that the bytes spell, from the first to the last, as it is read. `None` comes exactly
/// where they spell none. Takes no memory.
pub fn read_letter(bytes: &[u8], members: Members) -> Option<Letter<'_>>
    ensures fits { IfSome result (λ letter. FitsMessage members (message_of letter)) }
    ensures spelled { IfSome result (λ letter. bytes.now ≡ message_bytes (message_of letter)) }
    ensures none { IfNone result ((m : MessageValue) → FitsMessage members m → bytes.now ≡ message_bytes m → ⊥) }
{
    let (kind, rest) = split_kind(bytes)?;
    match kind {
        1 => {
            let way = read_ask(Reader::new(rest), members)?;
            Some(Letter::Ask(way))
        }
        3 => {
            let (head, piece) = read_piece(Reader::new(rest), members)?;
            Some(Letter::Piece(head, piece))
        }
        _ => None,
    }
}

// The message of a letter.
fn message_in(alloc: Global, letter: Letter<'_>) -> Result<Message, Memory>
    ensures made { IfOk result (λ m. m ≡ message_of letter.entry) }
    ensures memory { OnErr result (IsPiece (message_of letter.entry)) }
{
    match letter {
        Letter::Ask(Route { from, to, number }) => Ok(Message::Ask { from, to, number }),
        Letter::Piece(head, bytes) => {
            let PieceHead {
                route: Route { from, to, number },
                state,
                pieces,
                index,
            } = head;
            let bytes = Listed::of(bytes.to_vec(alloc)?);
            Ok(Message::Piece {
                from,
                to,
                number,
                state,
                pieces,
                index,
                bytes,
            })
        }
    }
}

/// The message between members that the bytes spell, from the first to the last. `NotMessage` comes exactly where they
/// spell none; `Memory` only where they spell a piece.
pub fn decode(alloc: Global, bytes: &[u8], members: Members) -> Result<Message, WireFault>
    ensures fits { IfOk result (λ m. FitsMessage members m) }
    ensures spelled { IfOk result (λ m. bytes.now ≡ message_bytes m) }
    ensures one { (m : MessageValue) → FitsMessage members m → bytes.now ≡ message_bytes m
        → IfOk result (λ read. read ≡ m) }
    ensures not_message { IsErrOf result WireFault.NotMessage →
        (m : MessageValue) → FitsMessage members m → bytes.now ≡ message_bytes m → ⊥ }
    ensures memory { IsErrOf result WireFault.Memory → SpellPiece members bytes.now }
{
    match read_letter(bytes, members) {
        Some(letter) => message_in(alloc, letter).map_err(|_| WireFault::Memory),
        None => Err(WireFault::NotMessage),
    }
}

/// The law that no message has the spelling of another. It does nothing when it runs.
pub fn one_message()
    ensures { (members : ℕ) (m n : MessageValue) → FitsMessage members m → FitsMessage members n →
        message_bytes m ≡ message_bytes n → m ≡ n }
{}
