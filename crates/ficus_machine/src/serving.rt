ghost use Rattle.std.specs.Prelude.{◌≡◌, ◌≢◌, ◌<◌, ◌^◌, [], ◌∷◌, List, MatchResult, Option, false, length, map};
ghost use Rattle.ficus_ids.specs.declared.refusal.Refusal.TheVariants.{Memory as OutOfMemory};
ghost use Rattle.ficus_machine.specs.Answers.{AskAnswers, refused as declined};
ghost use Rattle.ficus_machine.specs.Line.{GoesInWorld};
ghost use Rattle.ficus_machine.specs.Came.{CameIn, letter_of};
ghost use Rattle.ficus_machine.specs.Moments.{IsOpenIn, Works};
ghost use Rattle.ficus_machine.specs.Posting.{ArePosted, IsPosted, OnlyFetches, Puts};
ghost use Rattle.ficus_machine.specs.declared.fault.LineFault.TheVariants.{Memory as LineMemory};
ghost use Rattle.ficus_note.specs.declared.asked.Asked.{Asked as NotedValue};
ghost use Rattle.ficus_replica.specs.declared.replica.Replica.{Replica as ReplicaValue};
ghost use Rattle.ficus_world.specs.Disks.{IsBacked};
ghost use Rattle.ficus_world.specs.World.{IsReplica};
ghost use Rattle.ficus_wire.specs.Message.{FitsMessage, ask_of, message_bytes};
ghost use Rattle.ficus_wire.specs.declared.message.Message.{Message};

use crate::Machine;
use crate::answering::refused;
use crate::fault::LineFault;
use ficus_disk::{Disk, Pair};
use ficus_envelope::seal_spelled;
use ficus_ids::Refusal;
use ficus_keeper::Keep;
use ficus_mailbox::{Mailbox, MessageName};
use ficus_member_script::MemberAnswer;
use ficus_outside::Link;
use ficus_script::{Answer, Command};
use ficus_wire::Route;
use std::alloc::Global;

/// The answer to an ask that is put: the way of the ask, the number of its message in the world, behind which the
/// pieces stand, and the generation of what the member has saved.
#[derive(Clone, Copy)]
pub(crate) struct Serving {
    pub(crate) way: Route,
    pub(crate) behind: u32,
    pub(crate) state: u64,
}

impl<K: Keep + Drop> Machine<K> {
    /// Answers an ask that came, which these bytes spell: each piece of what the member has saved is put.
    pub(crate) fn serve<D: Disk, M: Mailbox>(
        &mut self,
        alloc: Global,
        disks: &mut Vec<Pair<D>>,
        mailbox: &mut M,
        way: Route,
        spelled: Vec<u8>,
    ) -> Result<MemberAnswer, LineFault>
        requires backed { IsBacked K.Keep D.Disk self.old.world disks.old.items }
        requires fits { FitsMessage (length self.old.world.whole.members) (ask_of way) }
        requires spelled { spelled.items ≡ message_bytes (ask_of way) }
        requires to { way.to ≡ self.old.me }
        requires came { M.tells → CameIn self.old.tag (length self.old.world.whole.members) self.old.me
            (M.given mailbox.old) spelled.items }
        ensures goes { GoesInWorld K.Keep D.Disk M.Mailbox (AskAnswers M.Mailbox self.old.me self.old.tag way
            self.old.world.whole mailbox.old mailbox.new) result self.old self.new disks.old.items disks.new.items
            mailbox.old mailbox.new }
        ensures works { (noted : Option NotedValue) → IsOpenIn self.old.world.whole self.old.me noted
            → Works K.Keep D.Disk self.old.me noted self.old.world.whole self.new.world.whole disks.old.items
            disks.new.items }
    {
        let behind = match self.world.hear(spelled) {
            Ok(mail) => mail,
            Err(refusal) => return unheard(refusal),
        };
        if let Answer::Refused(refusal) = self.act(alloc, disks, &Command::Give { mail: behind })? {
            return Ok(refused(refusal));
        }
        let state = self.generation();
        let count = self.world.link().count();
        let pieces = count - behind;
        let serving = Serving { way, behind, state };
        let are_put = self.put_pieces(alloc, mailbox, serving, pieces)?;
        if are_put {
            Ok(MemberAnswer::Served { pieces, state })
        } else {
            Ok(refused(Refusal::Link))
        }
    }

    // The generation of what its member, which is up, has saved.
    fn generation(&self) -> u64
        requires up { (replica : ReplicaValue) × IsReplica self.now.world.whole.members self.now.me replica }
        ensures { (replica : ReplicaValue) → IsReplica self.now.world.whole.members self.now.me replica
            → result ≡ replica.saved.generation }
    {
        match self.world.replica(self.me) {
            Some(replica) => replica.saved.generation,
            None => unreachable!(),
        }
    }

    // Puts so many pieces of an answer, and answers whether all are put.
    fn put_pieces<M: Mailbox>(
        &mut self,
        alloc: Global,
        mailbox: &mut M,
        serving: Serving,
        pieces: u32,
    ) -> Result<bool, LineFault>
        requires few { length self.old.world.whole.post.posts < 2 ^ 32 }
        requires posted { (messages : List Message) × (length messages ≡ pieces)
            × ArePosted self.old serving messages }
        ensures puts { (messages : List Message) → length messages ≡ pieces → ArePosted self.old serving messages
            → Puts M.Mailbox (map (letter_of self.old.tag) messages) result mailbox.old mailbox.new }
        ensures fetches { OnlyFetches self.old self.new }
    {
        for index in 0..pieces {
            let is_put = self.put_piece(alloc, mailbox, serving, index)?;
            if !is_put {
                return Ok(false);
            }
        }
        Ok(true)
    }

    // Puts the piece with this index, and answers whether it is put.
    fn put_piece<M: Mailbox>(
        &mut self,
        alloc: Global,
        mailbox: &mut M,
        serving: Serving,
        index: u32,
    ) -> Result<bool, LineFault>
        requires few { length self.old.world.whole.post.posts < 2 ^ 32 }
        requires posted { (message : Message) × IsPosted self.old serving index message }
        ensures puts { (message : Message) → IsPosted self.old serving index message
            → Puts M.Mailbox (letter_of self.old.tag message ∷ []) result mailbox.old mailbox.new }
        ensures fetches { OnlyFetches self.old self.new }
    {
        let number = serving.behind + 1 + index;
        let spelled = match self.world.message(number) {
            Ok(spelled) => spelled,
            Err(refusal) => return unfetched(refusal),
        };
        let sealed = seal_spelled(alloc, self.tag, &spelled)?;
        let name = MessageName::Piece {
            from: self.me,
            to: serving.way.from,
            number: serving.way.number,
            state: serving.state,
            index,
        };
        Ok(mailbox.put(name, &sealed).is_ok())
    }
}

// What a message comes to that isn't heard: it is refused, or memory was.
fn unheard(refusal: Refusal) -> Result<MemberAnswer, LineFault>
    ensures { MatchResult result (λ answer. (answer ≡ declined refusal) × (refusal ≢ OutOfMemory))
        (λ fault. fault ≡ LineMemory) }
{
    match refusal {
        Refusal::Memory => Err(LineFault::Memory),
        _ => Ok(refused(refusal)),
    }
}

// What a message comes to that isn't fetched: it isn't put, or memory was refused.
fn unfetched(refusal: Refusal) -> Result<bool, LineFault>
    ensures { MatchResult result (λ is. (is ≡ false) × (refusal ≢ OutOfMemory)) (λ fault. fault ≡ LineMemory) }
{
    match refusal {
        Refusal::Memory => Err(LineFault::Memory),
        _ => Ok(false),
    }
}
