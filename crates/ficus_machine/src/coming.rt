ghost use Rattle.std.specs.Prelude.{◌≡◌, ◌≤◌, IfOk, drop, length};
ghost use Rattle.ficus_machine.specs.Came.{IsComing};

use ficus_envelope::{UnsealFault, unseal};
use ficus_ids::{Members, Memory};
use ficus_mailbox::Found;
use ficus_tag::{TAG_SIZE, Tag};
use ficus_wire::{Message, PieceHead, Route};
use std::alloc::Global;

/// What a file is that came for a member: what it says, and the bytes that spell it.
#[derive(Drop)]
pub(crate) enum Coming {
    /// There is none of this name.
    Nothing,
    /// It is no message of the volume to the member.
    NoMessage,
    /// It is an ask.
    Ask(Route, Vec<u8>),
    /// It is a piece of an answer.
    Piece(PieceHead, Vec<u8>),
}

/// What was found is, for this member of the volume with this tag.
pub(crate) fn what_came(
    alloc: Global,
    tag: Tag,
    members: Members,
    me: u8,
    found: &Found,
) -> Result<Coming, Memory>
    ensures { IfOk result (IsComing tag members me found.now) }
{
    match found {
        Found::Nothing => Ok(Coming::Nothing),
        Found::Oversized => Ok(Coming::NoMessage),
        Found::Bytes(bytes) => unsealed(alloc, tag, members, me, bytes.items()),
    }
}

// What these bytes are.
fn unsealed(
    alloc: Global,
    tag: Tag,
    members: Members,
    me: u8,
    bytes: &[u8],
) -> Result<Coming, Memory>
    ensures { IfOk result (IsComing tag members me (Found.Bytes bytes.now)) }
{
    match unseal(alloc, tag, bytes, members) {
        Ok(Message::Ask { from, to, number }) if to == me => {
            let way = Route { from, to, number };
            Ok(Coming::Ask(way, spelled(alloc, bytes)?))
        }
        Ok(
            Message::Piece {
                from,
                to,
                number,
                state,
                pieces,
                index,
                bytes: _,
            },
        ) if to == me => {
            let route = Route { from, to, number };
            let head = PieceHead {
                route,
                state,
                pieces,
                index,
            };
            Ok(Coming::Piece(head, spelled(alloc, bytes)?))
        }
        Ok(_) | Err(UnsealFault::OtherVolume | UnsealFault::NotMessage) => Ok(Coming::NoMessage),
        Err(UnsealFault::Memory) => Err(Memory),
    }
}

// What stands behind the tag.
fn spelled(alloc: Global, bytes: &[u8]) -> Result<Vec<u8>, Memory>
    requires { 16 ≤ length bytes.now }
    ensures { IfOk result (λ rest. rest.items ≡ drop 16 bytes.now) }
{
    Ok(bytes[TAG_SIZE..].to_vec(alloc)?)
}
