ghost use Rattle.std.specs.Prelude.{◌≡◌, ◌⊎◌, ◌<◌, ◌-◌, ◌^◌, [], ◌∷◌, false, length, IfNone, IfOk, IfSome, IsErrOf};
ghost use Rattle.ficus_ids.specs.declared.refusal.Refusal.{Refusal as RefusalValue};
ghost use Rattle.ficus_machine.specs.Acting.{Acts};
ghost use Rattle.ficus_machine.specs.Answers.{CommandAnswers, HasFailed};
ghost use Rattle.ficus_machine.specs.Asking.{NotesAsk, PreparesAsk};
ghost use Rattle.ficus_machine.specs.Came.{letter_of};
ghost use Rattle.ficus_machine.specs.Line.{Goes};
ghost use Rattle.ficus_machine.specs.Machine.{IsAtRest};
ghost use Rattle.ficus_machine.specs.Moments.{LivesTo, NotesTo};
ghost use Rattle.ficus_machine.specs.Posting.{Puts};
ghost use Rattle.ficus_machine.specs.declared.fault.LineFault.TheVariants.{Note as NoteFault};
ghost use Rattle.ficus_note.specs.Calls.{IsPrepared, IsReady};
ghost use Rattle.ficus_script.specs.Command.{IsCommand};
ghost use Rattle.ficus_script.specs.declared.answer.Answer.TheVariants.{Refused};
ghost use Rattle.ficus_script.specs.declared.command.Command.TheVariants.{Ask as AskCommand};
ghost use Rattle.ficus_replica.specs.declared.replica.Asked.{Asked as AskedValue};
ghost use Rattle.ficus_wire.specs.Message.{FitsMessage};
ghost use Rattle.ficus_wire.specs.declared.message.Message.TheVariants.{Ask as AskMessage};
ghost use Rattle.ficus_world.specs.Disks.{IsBacked};
ghost use Rattle.ficus_world.specs.Hearing.{Awaits};
ghost use Rattle.ficus_world.specs.Kills.{IsDeedOf, Passes};

use crate::Machine;
use crate::answering::refused;
use crate::fault::LineFault;
use crate::machine::noted_of;
use crate::noting::{prepare_note, save_note};
use ficus_disk::{Disk, Pair};
use ficus_envelope::{name_of, seal};
use ficus_ids::Refusal;
use ficus_keeper::Keep;
use ficus_mailbox::Mailbox;
use ficus_member_script::MemberAnswer;
use ficus_replica::Asked;
use ficus_script::{Answer, Command};
use ficus_wire::Message;
use std::alloc::Global;

impl<K: Keep + Drop> Machine<K> {
    /// Asks another member for its state. An ask that was open is closed first, in the note too; then the member saves
    /// the new one, that is noted, and its message is put: so a kill in between leaves no ask noted that isn't open.
    pub(crate) fn ask<D: Disk, N: Disk, M: Mailbox>(
        &mut self,
        alloc: Global,
        disks: &mut Vec<Pair<D>>,
        slots: &mut Pair<N>,
        mailbox: &mut M,
        to: u8,
    ) -> Result<MemberAnswer, LineFault>
        requires rest { IsAtRest K.Keep D.Disk N.Disk self.old disks.old.items slots.old }
        requires command { IsCommand (AskCommand self.old.me to) }
        ensures goes { Goes K.Keep D.Disk N.Disk M.Mailbox (CommandAnswers M.Mailbox self.old.me self.new.note.asked
            self.old.world.whole self.new.world.whole mailbox.old mailbox.new (AskCommand self.old.me to))
            result self.old self.new disks.old.items disks.new.items slots.old slots.new mailbox.old mailbox.new }
        ensures lives { LivesTo K.Keep D.Disk N.Disk (IsErrOf result NoteFault → ⊥) self.old self.new disks.old.items
            disks.new.items slots.old slots.new }
    {
        self.prepare_ask(slots)?;
        let answer = self.act_ask(alloc, disks, to)?;
        if let Some(refusal) = refusal_of(answer) {
            // The world's own link may have failed, and an earlier ask may be open still.
            self.renew(alloc);
            self.settle_note(slots)?;
            return Ok(refused(refusal));
        }
        let asked = self.note_ask(slots)?;
        let is_put = self.put_ask(alloc, mailbox, asked)?;
        self.renew(alloc);
        if is_put {
            Ok(MemberAnswer::Asked(asked.number))
        } else {
            Ok(refused(Refusal::Link))
        }
    }

    // Notes that no ask is open, and takes all that noting one needs.
    fn prepare_ask<N: Disk>(&mut self, slots: &mut Pair<N>) -> Result<(), LineFault>
        requires ready { N.tells → IsReady N.Disk self.old.note slots.old }
        ensures prepares { PreparesAsk N.Disk result self.old self.new slots.old slots.new }
        ensures notes { NotesTo N.Disk result self.old.note self.new.note slots.old slots.new }
    {
        save_note(&mut self.note, slots, None)?;
        prepare_note(&mut self.note, slots)
    }

    // Asks in its world.
    fn act_ask<D: Disk>(
        &mut self,
        alloc: Global,
        disks: &mut Vec<Pair<D>>,
        to: u8,
    ) -> Result<Answer, LineFault>
        requires command { IsCommand (AskCommand self.old.me to) }
        requires backed { IsBacked K.Keep D.Disk self.old.world disks.old.items }
        ensures acts { Acts K.Keep D.Disk (AskCommand self.old.me to) result self.old self.new disks.old.items
            disks.new.items }
        ensures passes { Passes (Unit {0}) K.Keep D.Disk (IsDeedOf (AskCommand self.old.me to)) self.old.world.whole
            self.new.world.whole disks.old.items disks.new.items
            ⊎ ((self.new.world.whole ≡ self.old.world.whole) × (disks.new.items ≡ disks.old.items)) }
    {
        let command = Command::Ask {
            by: self.member(),
            to,
        };
        self.act(alloc, disks, &command)
    }

    // Notes the ask that was just saved.
    fn note_ask<N: Disk>(&mut self, slots: &mut Pair<N>) -> Result<Asked, LineFault>
        requires prepared { IsPrepared N.room self.old.note slots.old }
        requires next { self.old.note.generation < 2 ^ 64 - 1 }
        requires ready { N.tells → IsReady N.Disk self.old.note slots.old }
        requires waits { (ask : AskedValue) × Awaits self.old.world.whole self.old.me ask }
        ensures asks { NotesAsk N.Disk result self.old self.new slots.old slots.new }
        ensures notes { NotesTo N.Disk result self.old.note self.new.note slots.old slots.new }
    {
        let Some(asked) = self.world.open_ask(self.me) else {
            unreachable!()
        };
        self.note.save(slots, Some(noted_of(asked)))?;
        Ok(asked)
    }

    // Puts the message of its ask, and answers whether it is put.
    fn put_ask<M: Mailbox>(
        &self,
        alloc: Global,
        mailbox: &mut M,
        asked: Asked,
    ) -> Result<bool, LineFault>
        requires fits { FitsMessage (length self.now.world.whole.members)
            (AskMessage self.now.me asked.to asked.number) }
        ensures puts { Puts M.Mailbox (letter_of self.now.tag (AskMessage self.now.me asked.to asked.number) ∷ [])
            result mailbox.old mailbox.new }
        ensures failed { IfOk result (λ is_put. is_put ≡ false → HasFailed M.Mailbox mailbox.old mailbox.new) }
    {
        let message = Message::Ask {
            from: self.me,
            to: asked.to,
            number: asked.number,
        };
        let sealed = seal(alloc, self.tag, &message, self.members())?;
        Ok(mailbox.put(name_of(&message), &sealed).is_ok())
    }
}

// Why it is refused, where it is.
fn refusal_of(answer: Answer) -> Option<Refusal>
    ensures some { IfSome result (λ refusal. answer ≡ Refused refusal) }
    ensures none { IfNone result ((refusal : RefusalValue) → answer ≡ Refused refusal → ⊥) }
{
    match answer {
        Answer::Refused(refusal) => Some(refusal),
        _ => None,
    }
}
