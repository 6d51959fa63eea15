ghost use Rattle.std.specs.Prelude.{◌≡◌, ◌≢◌, ◌+◌, ◌^◌, ◌<◌, ◌≤◌, Err, length, IfErr, IfOk, OnOk, IsErrOf};
ghost use Rattle.ficus_ids.specs.Members.{IsMember};
ghost use Rattle.ficus_ids.specs.declared.refusal.Refusal.TheVariants.{Memory as OutOfMemory};
ghost use Rattle.ficus_durable_state.specs.Saved.{FitsImage};
ghost use Rattle.ficus_keeper.specs.Framed.{body_in, head_size};
ghost use Rattle.ficus_wire.specs.Message.{message_bytes};
ghost use Rattle.ficus_runs.specs.Message.{Reads};
ghost use Rattle.ficus_runs.specs.Sequence.{unchanged};
ghost use Rattle.std.specs.List.{range_with_len};
ghost use Rattle.ficus_world.specs.Disks.{Carried, CarriedOn, IsBacked};
ghost use Rattle.ficus_world.specs.Acts.{Acts};
ghost use Rattle.ficus_world.specs.Moves.{AsksWith, FetchesBytes, KeepsAsk, MayAsk, ask_of, messages_read};
ghost use Rattle.ficus_world.specs.World.{backed_by, event_limit, most_events};
ghost use Rattle.ficus_world.specs.Calls.{AsksPeer, GivesEach, GivesMail, MakesReady};

use crate::World;
use crate::group::Group;
use crate::member::is_up;
use crate::pairs::prepare_at;
use crate::post::{Behind, Post};
use crate::saving::commit_next;
use ficus_disk::{Disk, Pair};
use ficus_ids::{Listed, Memory, Refusal};
use ficus_keeper::Keep;
use ficus_model::{Event, History};
use ficus_opening::Pending;
use ficus_outside::Link;
use ficus_record::Record;
use ficus_replica::Replica;
use ficus_script::Answer;
use ficus_stable_storage::{Stable, frame_record};
use ficus_wire::{Letter, Route, encode_ask, read_letter};
use std::alloc::Global;

/// What is known of a message that came: its number, from whom to whom it goes, and the number of its ask.
#[derive(Clone, Copy)]
pub(crate) struct Delivery {
    pub(crate) mail: u32,
    pub(crate) from: u8,
    pub(crate) to: u8,
    pub(crate) ask: u64,
}

// What a member holds once it has asked, and its message.
#[derive(Drop)]
struct Asking {
    replica: Replica,
    message: Vec<u8>,
}

impl<K: Keep + Drop, L: Link + Drop> World<K, L> {
    /// Asks for the state of another member. Gives the number of the message. All memory is taken before anything
    /// changes.
    pub(crate) fn ask<D: Disk>(
        &mut self,
        alloc: Global,
        disks: &mut Vec<Pair<D>>,
        by: u8,
        to: u8,
    ) -> Result<u32, Refusal>
        requires room { length self.old.whole.events < event_limit }
        requires backed { IsBacked K.Keep D.Disk self.old disks.old.items }
        ensures { AsksPeer L.tells K.Keep D.Disk by to result self.old self.new disks.old.items disks.new.items }
    {
        self.group.may_ask(by, to)?;
        self.ask_peer(alloc, disks, by, to)
    }

    /// Asks another member, as one that was looked at: it is up, and the other one is another.
    pub(crate) fn ask_peer<D: Disk>(
        &mut self,
        alloc: Global,
        disks: &mut Vec<Pair<D>>,
        by: u8,
        to: u8,
    ) -> Result<u32, Refusal>
        requires room { length self.old.whole.events < event_limit }
        requires backed { IsBacked K.Keep D.Disk self.old disks.old.items }
        requires may { MayAsk self.old.whole by to }
        ensures { AsksPeer L.tells K.Keep D.Disk by to result self.old self.new disks.old.items disks.new.items }
    {
        let (asking, noted) = self.group.asking(alloc, by, to)?;
        self.group
            .send_asking(&mut self.stables, disks, by, to, asking, noted)
    }

    /// Gives a message to its receiver, who serves an ask and takes a piece of an answer.
    pub(crate) fn give<D: Disk>(
        &mut self,
        alloc: Global,
        disks: &mut Vec<Pair<D>>,
        mail: u32,
    ) -> Result<Answer, Refusal>
        requires room { length self.old.whole.events < event_limit + most_events }
        requires backed { IsBacked K.Keep D.Disk self.old disks.old.items }
        ensures { GivesMail L.tells K.Keep D.Disk mail result self.old self.new disks.old.items disks.new.items }
    {
        let bytes = self.group.fetch(mail)?;
        match self.group.letter(bytes.items())? {
            Letter::Ask(Route { from, to, number }) => {
                let came = Delivery {
                    mail,
                    from,
                    to,
                    ask: number,
                };
                self.group.serve(alloc, came)
            }
            Letter::Piece(head, piece) => {
                let came = Delivery {
                    mail,
                    from: head.route.from,
                    to: head.route.to,
                    ask: head.route.number,
                };
                self.take_piece(alloc, disks, came, head, piece)
            }
        }
    }

    /// Gives so many messages from this number on, in order, up to the first refusal.
    pub(crate) fn give_each<D: Disk>(
        &mut self,
        alloc: Global,
        disks: &mut Vec<Pair<D>>,
        first: u32,
        count: u32,
    ) -> Result<Answer, Refusal>
        requires room { length self.old.whole.events + count < event_limit + most_events }
        requires numbers { first + count ≤ 2 ^ 32 }
        requires backed { IsBacked K.Keep D.Disk self.old disks.old.items }
        ensures { GivesEach L.tells K.Keep D.Disk (range_with_len first count) result self.old self.new
            disks.old.items disks.new.items }
    {
        self.settled(disks);
        for index in 0..count {
            self.give(alloc, disks, first + index)?;
            self.settled(disks);
        }
        Ok(Answer::Done)
    }
}

impl<L: Link + Drop> Group<L> {
    // Looks whether they are two different members, the first of which is up.
    fn may_ask(&self, by: u8, to: u8) -> Result<(), Refusal>
        ensures may { IfOk result (λ _. MayAsk self.now by to) }
        ensures refused { IfErr result (λ refusal. (refusal ≢ OutOfMemory)
            × KeepsAsk L.tells by to self.now (Err refusal) (unchanged self.now)) }
    {
        if !self.are_peers(by, to) {
            Err(Refusal::Member)
        } else if is_up(self.member(by)) {
            Ok(())
        } else {
            Err(Refusal::Down)
        }
    }

    // What the member holds once it has asked another one, and its message; and the record of its ask, in a frame.
    fn asking(&self, alloc: Global, by: u8, to: u8) -> Result<(Asking, Vec<u8>), Memory>
        requires room { length self.now.events < event_limit }
        requires may { MayAsk self.now by to }
        ensures asks { IfOk result (λ asked. AsksWith by to (body_in asked.1.items) asked.0.replica self.now) }
        ensures message { IfOk result (λ asked. asked.0.message.items ≡ message_bytes (ask_of by to asked.0.replica)) }
    {
        let replica = self.member(by).replica.ask(to)?;
        let number = replica.saved.generation;
        let message = encode_ask(
            alloc,
            Route {
                from: by,
                to,
                number,
            },
        )?;
        let noted = frame_record(alloc, &Record::Ask, self.count())?;
        Ok((Asking { replica, message }, noted))
    }

    // Saves a member that has asked, and posts its message. All memory is taken before anything changes.
    fn send_asking<K: Keep + Drop, D: Disk>(
        &mut self,
        stables: &mut Vec<Stable<K>>,
        disks: &mut Vec<Pair<D>>,
        by: u8,
        to: u8,
        asking: Asking,
        noted: Vec<u8>,
    ) -> Result<u32, Refusal>
        requires room { length self.old.events < event_limit }
        requires stables { length stables.old.items ≡ length self.old.members }
        requires backed { IsBacked K.Keep D.Disk (backed_by self.old stables.old.items) disks.old.items }
        requires asking { AsksWith by to (body_in noted.items) asking.replica self.old }
        requires message { asking.message.items ≡ message_bytes (ask_of by to asking.replica) }
        ensures asks { CarriedOn K.Keep D.Disk (KeepsAsk L.tells by to) result self.old self.new disks.old.items
            disks.new.items }
        ensures acts { Acts K.Keep D.Disk 1 result (backed_by self.old stables.old.items)
            (backed_by self.new stables.new.items) disks.old.items disks.new.items }
    {
        make_ready(
            &mut self.history,
            &mut self.post,
            stables,
            disks,
            by,
            &asking,
            noted,
        )?;
        let behind = Behind {
            position: self.history.len(),
            index: 0,
        };
        let Asking { replica, message } = asking;
        let next = Pending {
            replica,
            event: Event::Ask { by, to },
        };
        commit_next(
            &mut self.members,
            &mut self.history,
            stables,
            disks,
            by,
            next,
        )?;
        self.post.send(message, behind)
    }

    // The bytes of a message.
    fn fetch(&mut self, mail: u32) -> Result<Listed<u8>, Refusal>
        ensures fetches { Carried (FetchesBytes L.tells mail self.old) result self.new }
        ensures wants { IsErrOf result OutOfMemory → IsMember (length self.old.post.posts) mail }
        ensures behind { OnOk result (IsMember (length self.new.post.behind) mail) }
        ensures same { OnOk result (self.new ≡ self.old) }
        ensures stored { self.new.events ≡ self.old.events }
        ensures members { self.new.members ≡ self.old.members }
        ensures memory { IsErrOf result OutOfMemory → self.new ≡ self.old }
    {
        if !self.post.has(mail) {
            return Err(Refusal::NoMail);
        }
        Ok(Listed::of(self.post.fetch(mail)?))
    }

    // The message that the bytes spell.
    fn letter<'a>(&self, bytes: &'a [u8]) -> Result<Letter<'a>, Refusal>
        ensures { Reads (length self.now.members) bytes.now (messages_read result) }
    {
        read_letter(bytes, self.count()).ok_or(Refusal::BadMessage)
    }
}

// Looks whether what was asked may be posted, and takes all memory for that, and for what the asker saves.
fn make_ready<K: Keep + Drop, L: Link + Drop, D: Disk>(
    history: &mut History,
    post: &mut Post<L>,
    stables: &mut Vec<Stable<K>>,
    disks: &mut Vec<Pair<D>>,
    by: u8,
    asking: &Asking,
    noted: Vec<u8>,
) -> Result<(), Refusal>
    requires stable { IsMember (length stables.old.items) by }
    requires pair { IsMember (length disks.old.items) by }
    requires fits { FitsImage asking.now.replica.saved }
    requires head { head_size ≤ length noted.items }
    ensures { MakesReady K.Keep D.Disk by asking.now.replica.saved asking.now.message.items (body_in noted.items) result
        history.new.room history.old.events history.new.events post.old post.new stables.old.items stables.new.items
        disks.old.items disks.new.items }
{
    if !post.has_room_for(asking.message.len() as u64) {
        return Err(Refusal::LinkFull);
    }
    history.reserve(1)?;
    post.make_room(1)?;
    prepare_at(stables, disks, by, &asking.replica.saved, noted)?;
    Ok(())
}
