ghost use Rattle.std.specs.Prelude.{◌≡◌, ◌↔◌, ◌⊎◌, Err, IfErr, IfOk, IsErrOf, IsTrue, OnOk, length};
ghost use Rattle.ficus_ids.specs.Members.{IsMember};
ghost use Rattle.ficus_ids.specs.declared.refusal.Refusal.TheVariants.{Down as IsDown, Stale as IsStale};
ghost use Rattle.ficus_machine.specs.Answers.{PieceAnswers, TakeAnswers, answered};
ghost use Rattle.ficus_machine.specs.Came.{CameIn};
ghost use Rattle.ficus_machine.specs.Gathering.{IsPiece};
ghost use Rattle.ficus_machine.specs.Line.{Goes};
ghost use Rattle.ficus_machine.specs.Machine.{IsAtRest};
ghost use Rattle.ficus_machine.specs.Moments.{LivesTo, NotesTo};
ghost use Rattle.ficus_machine.specs.Taking.{Finishes, Undoes};
ghost use Rattle.ficus_machine.specs.declared.fault.LineFault.TheVariants.{Note as NoteFault};
ghost use Rattle.ficus_note.specs.Calls.{IsReady};
ghost use Rattle.ficus_world.specs.Hearing.{Awaits};
ghost use Rattle.ficus_world.specs.World.{IsUpIn};

use crate::Machine;
use crate::answering::refused;
use crate::coming::{Coming, what_came};
use crate::fault::{Halt, LineFault};
use crate::gathering::CamePiece;
use crate::noting::save_note;
use ficus_disk::{Disk, Pair};
use ficus_ids::Refusal;
use ficus_keeper::Keep;
use ficus_mailbox::{FindFault, Mailbox};
use ficus_member_script::MemberAnswer;
use ficus_note::Asked as Noted;
use ficus_replica::Asked;
use ficus_script::Answer;
use ficus_wire::PieceHead;
use std::alloc::Global;

impl<K: Keep + Drop> Machine<K> {
    /// Takes the message in the file of this name: an ask is answered, and of a piece the whole answer is taken.
    pub(crate) fn take<D: Disk, N: Disk, M: Mailbox>(
        &mut self,
        alloc: Global,
        disks: &mut Vec<Pair<D>>,
        slots: &mut Pair<N>,
        mailbox: &mut M,
        filed: &[u8],
    ) -> Result<MemberAnswer, LineFault>
        requires rest { IsAtRest K.Keep D.Disk N.Disk self.old disks.old.items slots.old }
        ensures goes { Goes K.Keep D.Disk N.Disk M.Mailbox (TakeAnswers M.Mailbox D.tells self.old.me self.old.tag
            filed.now self.old.world.whole self.new.world.whole mailbox.old mailbox.new) result self.old self.new
            disks.old.items disks.new.items slots.old slots.new mailbox.old mailbox.new }
        ensures lives { LivesTo K.Keep D.Disk N.Disk (IsErrOf result NoteFault → ⊥) self.old self.new disks.old.items
            disks.new.items slots.old slots.new }
    {
        let found = match mailbox.find(alloc, filed) {
            Ok(found) => found,
            Err(FindFault::Failed) => return Ok(refused(Refusal::Link)),
            Err(FindFault::Memory) => return Err(LineFault::Memory),
        };
        match what_came(alloc, self.tag, self.members(), self.me, &found)? {
            Coming::Nothing => Ok(refused(Refusal::NoMail)),
            Coming::NoMessage => Ok(refused(Refusal::BadMessage)),
            Coming::Ask(way, spelled) => {
                let came_to = self.serve(alloc, disks, mailbox, way, spelled);
                self.finish(alloc, slots, came_to)
            }
            Coming::Piece(head, spelled) => {
                let piece = CamePiece { head, spelled };
                self.take_answer(alloc, disks, slots, mailbox, piece)
            }
        }
    }

    // Takes the answer of which this piece came, where the member waits for it.
    fn take_answer<D: Disk, N: Disk, M: Mailbox>(
        &mut self,
        alloc: Global,
        disks: &mut Vec<Pair<D>>,
        slots: &mut Pair<N>,
        mailbox: &mut M,
        piece: CamePiece,
    ) -> Result<MemberAnswer, LineFault>
        requires rest { IsAtRest K.Keep D.Disk N.Disk self.old disks.old.items slots.old }
        requires piece { IsPiece (length self.old.world.whole.members) self.old.me piece }
        requires came { M.tells → CameIn self.old.tag (length self.old.world.whole.members) self.old.me
            (M.given mailbox.old) piece.spelled.items }
        ensures goes { Goes K.Keep D.Disk N.Disk M.Mailbox (PieceAnswers M.Mailbox D.tells self.old.me self.old.tag
            piece.head self.old.world.whole self.new.world.whole mailbox.old mailbox.new) result self.old self.new
            disks.old.items disks.new.items slots.old slots.new mailbox.old mailbox.new }
        ensures lives { LivesTo K.Keep D.Disk N.Disk (IsErrOf result NoteFault → ⊥) self.old self.new disks.old.items
            disks.new.items slots.old slots.new }
    {
        let asked = match self.awaited(piece.head) {
            Ok(asked) => asked,
            Err(refusal) => return Ok(refused(refusal)),
        };
        let noted = self.note.asked();
        match self.gather(alloc, disks, slots, mailbox, &piece) {
            Ok(()) => self.finish(alloc, slots, Ok(MemberAnswer::Plain(Answer::Done))),
            Err(Halt::Refused(refusal)) => match refusal {
                Refusal::Store => self.finish(alloc, slots, Ok(refused(refusal))),
                _ => {
                    self.undo(alloc, slots, asked, noted)?;
                    Ok(refused(refusal))
                }
            },
            Err(Halt::Memory) => self.finish(alloc, slots, Err(LineFault::Memory)),
            Err(Halt::Note) => self.finish(alloc, slots, Err(LineFault::Note)),
        }
    }

    // The open ask, where this piece is of its answer, or why none is taken.
    fn awaited(&self, head: PieceHead) -> Result<Asked, Refusal>
        ensures asked { IfOk result (λ asked. asked ≡ answered head) }
        ensures awaits { IfOk result (Awaits self.now.world.whole self.now.me) }
        ensures down { result ≡ Err IsDown → IsUpIn self.now.world.whole self.now.me → ⊥ }
        ensures stale { result ≡ Err IsStale → IsUpIn self.now.world.whole self.now.me
            × (Awaits self.now.world.whole self.now.me (answered head) → ⊥) }
        ensures one { IfErr result (λ r. (r ≡ IsDown) ⊎ (r ≡ IsStale)) }
    {
        if self.world.replica(self.me).is_none() {
            return Err(Refusal::Down);
        }
        let Some(asked) = self.world.open_ask(self.me) else {
            return Err(Refusal::Stale);
        };
        if is_answer(asked, head) {
            Ok(asked)
        } else {
            Err(Refusal::Stale)
        }
    }

    // Its world has no message any more; and where it has come to an answer, what is noted is right.
    fn finish<N: Disk>(
        &mut self,
        alloc: Global,
        slots: &mut Pair<N>,
        came_to: Result<MemberAnswer, LineFault>,
    ) -> Result<MemberAnswer, LineFault>
        requires ready { N.tells → OnOk came_to (IsReady N.Disk self.old.note slots.old) }
        ensures finishes { Finishes N.Disk came_to result self.old self.new slots.old slots.new }
        ensures notes { NotesTo N.Disk result self.old.note self.new.note slots.old slots.new }
    {
        self.renew(alloc);
        let answer = came_to?;
        self.settle_note(slots)?;
        Ok(answer)
    }

    // Its world has no message any more, and its member waits for the answer again, of which it holds nothing; and this
    // is noted.
    fn undo<N: Disk>(
        &mut self,
        alloc: Global,
        slots: &mut Pair<N>,
        asked: Asked,
        noted: Option<Noted>,
    ) -> Result<(), LineFault>
        requires ready { N.tells → IsReady N.Disk self.old.note slots.old }
        requires member { IsMember (length self.old.world.whole.members) self.old.me }
        ensures undoes { Undoes N.Disk asked noted result self.old self.new slots.old slots.new }
        ensures notes { NotesTo N.Disk result self.old.note self.new.note slots.old slots.new }
    {
        self.world.await_answer(self.me, Some(asked));
        self.renew(alloc);
        save_note(&mut self.note, slots, noted)
    }
}

// Whether the piece is of the answer to this ask.
fn is_answer(asked: Asked, head: PieceHead) -> bool
    ensures { IsTrue result ↔ (asked ≡ answered head) }
{
    asked.to == head.route.from && asked.number == head.route.number
}
