ghost use Rattle.std.specs.Prelude.{◌≡◌, ◌≢◌, ◌⊎◌, ◌↔◌, ◌+◌, ◌<◌, Err, IfOk, IsTrue, None, Ok, Option, false, length};
ghost use Rattle.ficus_ids.specs.declared.refusal.Refusal.TheVariants.{Memory as OutOfMemory};
ghost use Rattle.ficus_machine.specs.Answers.{SpellsPiece, answered, sibling, sibling_name};
ghost use Rattle.ficus_machine.specs.Came.{CameIn};
ghost use Rattle.ficus_machine.specs.Gathering.{ClearsNote, CompletesWith, EndsTaking, FindsPiece, Gathers, Giving, GivesAt, HoldsFirst, HoldsOneMore, IsPiece};
ghost use Rattle.ficus_machine.specs.Machine.{KeepsRest};
ghost use Rattle.ficus_machine.specs.Moments.{IsOpenIn, LivesTo, NotesTo, Works};
ghost use Rattle.ficus_machine.specs.declared.fault.Halt.TheVariants.{Memory as HaltMemory, Note as HaltNote, Refused as HaltRefused};
ghost use Rattle.ficus_mailbox.specs.MessageName.{name_text};
ghost use Rattle.ficus_note.specs.Calls.{IsReady};
ghost use Rattle.ficus_note.specs.declared.asked.Asked.{Asked as NotedValue};
ghost use Rattle.ficus_world.specs.Disks.{IsBacked};
ghost use Rattle.ficus_world.specs.Hearing.{Awaits};

use crate::Machine;
use crate::coming::{Coming, what_came};
use crate::fault::{Halt, LineFault};
use crate::noting::save_note;
use ficus_disk::{Disk, Pair};
use ficus_ids::{Memory, Refusal};
use ficus_keeper::Keep;
use ficus_mailbox::{FindFault, Mailbox, MessageName};
use ficus_script::{Answer, Command};
use ficus_wire::PieceHead;
use std::alloc::Global;

/// A piece of an answer that came, and the bytes that spell it.
#[derive(Drop)]
pub(crate) struct CamePiece {
    pub(crate) head: PieceHead,
    pub(crate) spelled: Vec<u8>,
}

impl<K: Keep + Drop> Machine<K> {
    /// Gives the world all pieces of the answer of which this is one, in order, until the state is taken that they
    /// spell. The note is saved without an ask before the last one is given, since with that the member saves that its
    /// ask is closed.
    pub(crate) fn gather<D: Disk, N: Disk, M: Mailbox>(
        &mut self,
        alloc: Global,
        disks: &mut Vec<Pair<D>>,
        slots: &mut Pair<N>,
        mailbox: &mut M,
        piece: &CamePiece,
    ) -> Result<(), Halt>
        requires backed { IsBacked K.Keep D.Disk self.old.world disks.old.items }
        requires ready { N.tells → IsReady N.Disk self.old.note slots.old }
        requires waits { Awaits self.old.world.whole self.old.me (answered piece.now.head) }
        requires noted { IsOpenIn self.old.world.whole self.old.me self.old.note.asked }
        requires piece { IsPiece (length self.old.world.whole.members) self.old.me piece.now }
        requires came { M.tells → CameIn self.old.tag (length self.old.world.whole.members) self.old.me
            (M.given mailbox.old) piece.now.spelled.items }
        ensures gathers { Gathers K.Keep D.Disk N.Disk M.Mailbox piece.now.head result self.old self.new disks.old.items
            disks.new.items slots.old slots.new mailbox.old mailbox.new }
        ensures lives { LivesTo K.Keep D.Disk N.Disk (result ≡ Err HaltNote → ⊥) self.old self.new disks.old.items
            disks.new.items slots.old slots.new }
    {
        for index in 0..piece.head.pieces {
            if self.give_at(alloc, disks, slots, mailbox, piece, index)? {
                return Ok(());
            }
        }
        Err(Halt::Refused(Refusal::Missing))
    }

    // Gives the world the piece of the same answer with this index, and answers whether the state is taken with it.
    fn give_at<D: Disk, N: Disk, M: Mailbox>(
        &mut self,
        alloc: Global,
        disks: &mut Vec<Pair<D>>,
        slots: &mut Pair<N>,
        mailbox: &mut M,
        piece: &CamePiece,
        index: u32,
    ) -> Result<bool, Halt>
        requires backed { IsBacked K.Keep D.Disk self.old.world disks.old.items }
        requires ready { N.tells → IsReady N.Disk self.old.note slots.old }
        requires piece { IsPiece (length self.old.world.whole.members) self.old.me piece.now }
        requires came { M.tells → CameIn self.old.tag (length self.old.world.whole.members) self.old.me
            (M.given mailbox.old) piece.now.spelled.items }
        requires index { index < piece.now.head.pieces }
        requires held { HoldsFirst self.old.world.whole self.old.me piece.now.head index }
        requires noted { IsOpenIn self.old.world.whole self.old.me self.old.note.asked }
        ensures gives { GivesAt K.Keep D.Disk N.Disk M.Mailbox piece.now.head index result self.old self.new
            disks.old.items disks.new.items slots.old slots.new mailbox.old mailbox.new }
        ensures held { result ≡ Ok false → HoldsFirst self.new.world.whole self.old.me piece.now.head (index + 1) }
        ensures noted { result ≡ Ok false → IsOpenIn self.new.world.whole self.old.me self.new.note.asked }
        ensures lives { LivesTo K.Keep D.Disk N.Disk (result ≡ Err HaltNote → ⊥) self.old self.new disks.old.items
            disks.new.items slots.old slots.new }
    {
        let spelled = self.piece_at(alloc, mailbox, piece, index)?;
        self.clear_note(slots, piece.head, index)?;
        self.give_piece(alloc, disks, sibling(piece.head, index), spelled)
    }

    // Before the last piece is given, the note is saved without an ask.
    fn clear_note<N: Disk>(
        &mut self,
        slots: &mut Pair<N>,
        head: PieceHead,
        index: u32,
    ) -> Result<(), LineFault>
        requires ready { N.tells → IsReady N.Disk self.old.note slots.old }
        requires index { index < head.pieces }
        ensures clears { ClearsNote N.Disk head index result self.old self.new slots.old slots.new }
        ensures notes { NotesTo N.Disk result self.old.note self.new.note slots.old slots.new }
    {
        if index + 1 == head.pieces {
            save_note(&mut self.note, slots, None)?;
        }
        Ok(())
    }

    // The piece of the same answer with this index: it is the one that came, or lies in the file of its name.
    fn piece_at<M: Mailbox>(
        &self,
        alloc: Global,
        mailbox: &mut M,
        piece: &CamePiece,
        index: u32,
    ) -> Result<Vec<u8>, Halt>
        requires piece { IsPiece (length self.now.world.whole.members) self.now.me piece.now }
        requires came { M.tells → CameIn self.now.tag (length self.now.world.whole.members) self.now.me
            (M.given mailbox.old) piece.now.spelled.items }
        ensures { FindsPiece M.Mailbox self.now piece.now.head index result mailbox.old mailbox.new }
    {
        if index == piece.head.index {
            return Ok(copied(alloc, &piece.spelled)?);
        }
        let name = sibling_name(piece.head, index).text();
        let found = match mailbox.find(alloc, name.as_bytes()) {
            Ok(found) => found,
            Err(FindFault::Failed) => return Err(Halt::Refused(Refusal::Link)),
            Err(FindFault::Memory) => return Err(Halt::Memory),
        };
        match what_came(alloc, self.tag, self.members(), self.me, &found)? {
            Coming::Piece(head, spelled) if is_sibling(piece.head, index, head) => Ok(spelled),
            _ => Err(Halt::Refused(Refusal::Missing)),
        }
    }

    // Gives the world the piece that these bytes spell, and answers whether the state that it spells with those before
    // it is taken.
    fn give_piece<D: Disk>(
        &mut self,
        alloc: Global,
        disks: &mut Vec<Pair<D>>,
        head: PieceHead,
        spelled: Vec<u8>,
    ) -> Result<bool, Halt>
        requires backed { IsBacked K.Keep D.Disk self.old.world disks.old.items }
        requires to { head.route.to ≡ self.old.me }
        requires piece { SpellsPiece (length self.old.world.whole.members) head spelled.items }
        ensures giving { Giving D.tells self.old.me spelled.items self.old.world.whole result self.new.world.whole }
        ensures count { length self.new.world.whole.members ≡ length self.old.world.whole.members }
        ensures backed { IsBacked K.Keep D.Disk self.new.world disks.new.items }
        ensures rest { KeepsRest self.old self.new }
        ensures whole { EndsTaking result → CompletesWith self.old.world.whole self.old.me head }
        ensures held { result ≡ Ok false → HoldsOneMore self.old.me head self.old.world.whole self.new.world.whole }
        ensures works { (noted : Option NotedValue) → IsOpenIn self.old.world.whole self.old.me noted
            → (EndsTaking result → noted ≡ None) → Works K.Keep D.Disk self.old.me noted self.old.world.whole
            self.new.world.whole disks.old.items disks.new.items }
    {
        let mail = match self.world.hear(spelled) {
            Ok(mail) => mail,
            Err(refusal) => return Err(unheard(refusal)),
        };
        match self.act(alloc, disks, &Command::Give { mail })? {
            Answer::Refused(refusal) => Err(Halt::Refused(refusal)),
            Answer::Done => Ok(true),
            _ => Ok(false),
        }
    }
}

// Why a piece that isn't heard isn't given: the world refuses it, or memory was.
fn unheard(refusal: Refusal) -> Halt
    ensures { ((refusal ≡ OutOfMemory) × (result ≡ HaltMemory))
        ⊎ ((refusal ≢ OutOfMemory) × (result ≡ HaltRefused refusal)) }
{
    match refusal {
        Refusal::Memory => Halt::Memory,
        _ => Halt::Refused(refusal),
    }
}

// These bytes once more.
fn copied(alloc: Global, bytes: &[u8]) -> Result<Vec<u8>, Memory>
    ensures { IfOk result (λ copy. copy.items ≡ bytes.now) }
{
    Ok(bytes.to_vec(alloc)?)
}

// The piece of the same answer with this index.
fn sibling(head: PieceHead, index: u32) -> PieceHead
    ensures { result ≡ sibling head index }
{
    PieceHead {
        route: head.route,
        state: head.state,
        pieces: head.pieces,
        index,
    }
}

// Its name.
fn sibling_name(head: PieceHead, index: u32) -> MessageName
    ensures { name_text result ≡ sibling_name head index }
{
    MessageName::Piece {
        from: head.route.from,
        to: head.route.to,
        number: head.route.number,
        state: head.state,
        index,
    }
}

// Whether this is the piece of the same answer with this index.
fn is_sibling(head: PieceHead, index: u32, other: PieceHead) -> bool
    ensures { IsTrue result ↔ (other ≡ sibling head index) }
{
    other.route.from == head.route.from
        && other.route.to == head.route.to
        && other.route.number == head.route.number
        && other.state == head.state
        && other.pieces == head.pieces
        && other.index == index
}
