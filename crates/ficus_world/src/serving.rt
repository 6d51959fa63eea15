ghost use Rattle.std.specs.Prelude.{◌≡◌, ◌≢◌, ◌+◌, ◌^◌, ◌<◌, ◌≤◌, All, Err, length, map, IfErr, IfOk, IsErrOf};
ghost use Rattle.std.specs.List.{range_with_len};
ghost use Rattle.ficus_ids.specs.Members.{IsCount, IsMember};
ghost use Rattle.ficus_ids.specs.declared.refusal.Refusal.TheVariants.{Memory as OutOfMemory};
ghost use Rattle.ficus_codec.specs.Formats.{tables_bytes};
ghost use Rattle.ficus_formats.specs.Pieces as pieces;
ghost use Rattle.ficus_durable_state.specs.Saved.{FitsImage};
ghost use Rattle.ficus_wire.specs.Message.{FitsMessage, IsRoute, message_bytes, piece_limit, piece_of, sizes_of, way};
ghost use Rattle.ficus_runs.specs.Exchange as runs;
ghost use Rattle.ficus_runs.specs.Sequence.{unchanged};
ghost use Rattle.ficus_world.specs.Disks.{Carried};
ghost use Rattle.ficus_world.specs.Moves.{HasRoomFor, IsServing, ServesAsk, answers_of};
ghost use Rattle.ficus_world.specs.World.{event_limit, most_events};
ghost use Rattle.ficus_opening.specs.declared.member.Member.{Member as MemberValue};

use crate::exchange::Delivery;
use crate::group::Group;
use crate::member::is_up;
use ficus_codec::put_tables;
use ficus_durable_state::Saved;
use ficus_ids::{Listed, Memory, Refusal};
use ficus_model::Event;
use ficus_outside::Link;
use ficus_script::Answer;
use ficus_wire::{PieceHead, Route, answer_size, encode_piece, piece_at, piece_count};
use std::alloc::Global;

// What a member serves: the generation of its state, and the messages in which that goes.
#[derive(Drop)]
struct Serving {
    state: u64,
    messages: Vec<Listed<u8>>,
}

impl<L: Link + Drop> Group<L> {
    /// Serves an ask with what the member holds, and posts that in pieces. All memory is taken before anything changes.
    pub(crate) fn serve(&mut self, alloc: Global, came: Delivery) -> Result<Answer, Refusal>
        requires room { length self.old.events < event_limit + most_events }
        requires mail { IsMember (length self.old.post.behind) came.mail }
        requires route { IsRoute (length self.old.members) (way came.from came.to came.ask) }
        ensures serves { Carried (ServesAsk L.tells came self.old) result self.new }
        ensures few { IfOk result (λ answer. length (runs.mails_of answer) ≤ piece_limit) }
        ensures grows { length self.new.events ≤ length self.old.events + 1 }
        ensures members { self.new.members ≡ self.old.members }
        ensures memory { IsErrOf result OutOfMemory → self.new ≡ self.old }
    {
        let Serving { state, messages } = self.serving(alloc, came)?;
        let pieces = messages.len() as u32;
        self.history.reserve(1)?;
        self.post.make_room(pieces)?;
        let ask = self.post.behind(came.mail).position;
        let first = self.post.next();
        let position = self.history.len();
        self.history.push(Event::Serve {
            by: came.to,
            ask,
            state,
            pieces,
        });
        self.post.send_each(messages, position)?;
        Ok(mailed(first, pieces))
    }

    // What the member serves in answer to an ask, where it is up and there is room for all messages.
    fn serving(&self, alloc: Global, came: Delivery) -> Result<Serving, Refusal>
        requires route { IsRoute (length self.now.members) (way came.from came.to came.ask) }
        ensures serves { IfOk result (λ serving. (peer : MemberValue) × IsServing self.now came peer
            × (serving.state ≡ peer.replica.saved.generation)
            × (serving.messages.items ≡ map message_bytes (answers_of self.now came peer))
            × HasRoomFor self.now (sizes_of (answers_of self.now came peer))
            × All (FitsMessage (length self.now.members)) (answers_of self.now came peer)) }
        ensures refused { IfErr result (λ refusal. refusal ≢ OutOfMemory
            → ServesAsk L.tells came self.now (Err refusal) (unchanged self.now)) }
    {
        let peer = self.member(came.to);
        if !is_up(peer) {
            return Err(Refusal::Down);
        }
        let saved = &peer.replica.saved;
        let tables = spelled(alloc, saved)?;
        if !self.post.has_room_for(answer_size(&tables)) {
            return Err(Refusal::LinkFull);
        }
        let head = PieceHead {
            route: Route {
                from: came.to,
                to: came.from,
                number: came.ask,
            },
            state: saved.generation,
            pieces: piece_count(&tables) as u32,
            index: 0,
        };
        let messages = messages_of(alloc, head, &tables)?;
        Ok(Serving {
            state: saved.generation,
            messages,
        })
    }
}

// The spelling of the tables.
fn spelled(alloc: Global, saved: &Saved) -> Result<Vec<u8>, Memory>
    requires { FitsImage saved.now }
    ensures { IfOk result (λ bytes. bytes.items ≡ tables_bytes saved.now.members saved.now.entries saved.now.files) }
{
    let mut out = Vec::new(alloc);
    put_tables(&mut out, &saved.entries, &saved.files, saved.members)?;
    Ok(out)
}

// The messages in which the tables go, a piece in each, with its index in the head.
fn messages_of(alloc: Global, head: PieceHead, tables: &[u8]) -> Result<Vec<Listed<u8>>, Memory>
    requires { head.pieces ≡ pieces.piece_count tables.now }
    ensures { IfOk result (λ messages. messages.items
        ≡ map (λ index. message_bytes (piece_of (record head { index = index }) (pieces.piece_at tables.now index)))
        (range_with_len 0 head.pieces)) }
{
    let mut messages = Vec::with_capacity(alloc, head.pieces as usize)?;
    for index in 0..head.pieces {
        let piece = PieceHead { index, ..head };
        let message = encode_piece(alloc, piece, piece_at(tables, index))?;
        messages.push(Listed::of(message))?;
    }
    Ok(messages)
}

// The answer where so many messages were posted, from this number on.
fn mailed(first: u32, count: u32) -> Answer
    requires some { 1 ≤ count }
    requires within { first + count ≤ 2 ^ 32 }
    ensures { result ≡ runs.mailed first count }
{
    if count == 1 {
        Answer::Mail(first)
    } else {
        Answer::Mails(first, first + (count - 1))
    }
}
