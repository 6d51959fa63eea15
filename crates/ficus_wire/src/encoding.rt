ghost use Rattle.std.specs.Prelude.{◌≡◌, ◌++◌, ◌∷◌, IfOk, OnErr, OnOk};
ghost use Rattle.ficus_formats.specs.Format.{Keeps, number32, number64};
ghost use Rattle.ficus_wire.specs.Message.{ask_of, message_bytes, piece_of, route_fields, FitsMessage};

use crate::Message;
use crate::message::{PieceHead, Route};
use ficus_formats::{put_bytes, put_u8, put_u32, put_u64};
use ficus_ids::{Members, Memory};
use std::alloc::Global;

// How many bytes an ask has.
const ASK_SIZE: usize = 12;

/// How many bytes of a message stand in front of the bytes of a piece.
pub(crate) const HEAD_SIZE: usize = 28;

// Appends the version, the kind of a message and its route.
fn put_front(out: &mut Vec<u8>, kind: u8, way: Route) -> Result<(), Memory>
    ensures put { OnOk result (out.new.items ≡ out.old.items ++ (2 ∷ kind ∷ route_fields.spell way)) }
    ensures kept { OnErr result (Keeps out.old.items out.new.items) }
{
    put_u8(out, 2)?;
    put_u8(out, kind)?;
    put_u8(out, way.from)?;
    put_u8(out, way.to)?;
    put_u64(out, way.number)?;
    Ok(())
}

/// The one spelling of an ask.
pub fn encode_ask(alloc: Global, way: Route) -> Result<Vec<u8>, Memory>
    ensures { IfOk result (λ bytes. bytes.items ≡ message_bytes (ask_of way)) }
{
    let mut out = Vec::with_capacity(alloc, ASK_SIZE)?;
    put_front(&mut out, 1, way)?;
    Ok(out)
}

/// The one spelling of a piece with these bytes.
pub fn encode_piece(alloc: Global, head: PieceHead, bytes: &[u8]) -> Result<Vec<u8>, Memory>
    ensures { IfOk result (λ out. out.items ≡ message_bytes (piece_of head bytes.now)) }
{
    let mut out = Vec::with_capacity(alloc, bytes.len().saturating_add(HEAD_SIZE))?;
    put_front(&mut out, 3, head.route)?;
    put_u64(&mut out, head.state)?;
    put_u32(&mut out, head.pieces)?;
    put_u32(&mut out, head.index)?;
    put_bytes(&mut out, bytes)?;
    Ok(out)
}

/// The one spelling of a message between members.
pub fn encode(alloc: Global, message: &Message, members: Members) -> Result<Vec<u8>, Memory>
    requires { FitsMessage members message.now }
    ensures { IfOk result (λ bytes. bytes.items ≡ message_bytes message.now) }
{
    let _ = members;
    match message {
        Message::Ask { from, to, number } => {
            let way = Route {
                from: *from,
                to: *to,
                number: *number,
            };
            encode_ask(alloc, way)
        }
        Message::Piece {
            from,
            to,
            number,
            state,
            pieces,
            index,
            bytes,
        } => {
            let head = PieceHead {
                route: Route {
                    from: *from,
                    to: *to,
                    number: *number,
                },
                state: *state,
                pieces: *pieces,
                index: *index,
            };
            encode_piece(alloc, head, bytes.items())
        }
    }
}
