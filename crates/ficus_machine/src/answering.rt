ghost use Rattle.std.specs.Prelude.{◌≡◌, ◌↔◌, Some, IfNone, IfSome, IsErrOf, IsTrue, length};
ghost use Rattle.ficus_ids.specs.Members.{IsMember};
ghost use Rattle.ficus_machine.specs.Acting.{Acted, AsksNoPeer};
ghost use Rattle.ficus_machine.specs.Answers.{CommandAnswers, LineAnswers, elsewhere, performer, refused};
ghost use Rattle.ficus_machine.specs.Line.{Goes};
ghost use Rattle.ficus_machine.specs.Machine.{IsAtRest};
ghost use Rattle.ficus_machine.specs.Moments.{LivesTo};
ghost use Rattle.ficus_machine.specs.declared.fault.LineFault.TheVariants.{Note as NoteFault};
ghost use Rattle.ficus_member_script.specs.MemberLine.{IsOwnCommand, IsOwnLine};
ghost use Rattle.ficus_runs.specs.Peers.{ArePeers};
ghost use Rattle.ficus_script.specs.declared.command.Command.TheVariants.{Ask as AskCommand};

use crate::Machine;
use crate::fault::LineFault;
use ficus_disk::{Disk, Pair};
use ficus_ids::Refusal;
use ficus_keeper::Keep;
use ficus_mailbox::Mailbox;
use ficus_member_script::{MemberAnswer, MemberLine};
use ficus_script::{Answer, Command};
use std::alloc::Global;

impl<K: Keep + Drop> Machine<K> {
    /// Carries out a line and answers it. What the member saves is on its disks before a message is put, and before it
    /// is answered.
    ///
    /// A line of another member's number is answered `Down`, and `Member` above the count. A take is refused with
    /// `NoMail` where there is no file of the name, `Link` where the mailbox fails, `BadMessage` where the file is no
    /// message of this volume to this member, then, for a piece, `Down` and `Stale` where the member is down or doesn't
    /// wait for this answer, and `Missing` where another piece of it isn't there; and else as the world refuses it. All
    /// is as before then, but that what was posted stands, and that a member whose disks failed is down.
    pub fn carry_out<D: Disk, N: Disk, M: Mailbox>(
        &mut self,
        alloc: Global,
        disks: &mut Vec<Pair<D>>,
        slots: &mut Pair<N>,
        mailbox: &mut M,
        line: &MemberLine,
    ) -> Result<MemberAnswer, LineFault>
        requires rest { IsAtRest K.Keep D.Disk N.Disk self.old disks.old.items slots.old }
        requires line { IsOwnLine line.now }
        ensures goes { Goes K.Keep D.Disk N.Disk M.Mailbox (LineAnswers M.Mailbox D.tells self.old.me self.old.tag
            self.new.note.asked self.old.world.whole self.new.world.whole mailbox.old mailbox.new line.now) result
            self.old self.new disks.old.items disks.new.items slots.old slots.new mailbox.old mailbox.new }
        ensures lives { LivesTo K.Keep D.Disk N.Disk (IsErrOf result NoteFault → ⊥) self.old self.new disks.old.items
            disks.new.items slots.old slots.new }
    {
        match line {
            MemberLine::Does(command) => self.command(alloc, disks, slots, mailbox, command),
            MemberLine::Take(filed) => self.take(alloc, disks, slots, mailbox, filed.items()),
        }
    }

    // Carries out a command and answers it.
    fn command<D: Disk, N: Disk, M: Mailbox>(
        &mut self,
        alloc: Global,
        disks: &mut Vec<Pair<D>>,
        slots: &mut Pair<N>,
        mailbox: &mut M,
        command: &Command,
    ) -> Result<MemberAnswer, LineFault>
        requires rest { IsAtRest K.Keep D.Disk N.Disk self.old disks.old.items slots.old }
        requires command { IsOwnCommand command.now }
        ensures goes { Goes K.Keep D.Disk N.Disk M.Mailbox (CommandAnswers M.Mailbox self.old.me self.new.note.asked
            self.old.world.whole self.new.world.whole mailbox.old mailbox.new command.now) result self.old self.new
            disks.old.items disks.new.items slots.old slots.new mailbox.old mailbox.new }
        ensures lives { LivesTo K.Keep D.Disk N.Disk (IsErrOf result NoteFault → ⊥) self.old self.new disks.old.items
            disks.new.items slots.old slots.new }
    {
        let by = performer(command);
        if by != self.member() {
            return Ok(refused(self.elsewhere(by)));
        }
        match self.peer_asked(command) {
            Some(to) => self.ask(alloc, disks, slots, mailbox, to),
            None => self.own(alloc, disks, slots, command),
        }
    }

    // Carries out a command of its member that posts nothing. The mailbox isn't asked.
    fn own<D: Disk, N: Disk>(
        &mut self,
        alloc: Global,
        disks: &mut Vec<Pair<D>>,
        slots: &mut Pair<N>,
        command: &Command,
    ) -> Result<MemberAnswer, LineFault>
        requires rest { IsAtRest K.Keep D.Disk N.Disk self.old disks.old.items slots.old }
        requires command { IsOwnCommand command.now }
        requires own { performer command.now ≡ Some self.old.me }
        requires none { AsksNoPeer (length self.old.world.whole.members) self.old.me command.now }
        ensures acted { Acted K.Keep D.Disk N.Disk command.now result self.old self.new disks.old.items disks.new.items
            slots.old slots.new }
        ensures lives { LivesTo K.Keep D.Disk N.Disk (IsErrOf result NoteFault → ⊥) self.old self.new disks.old.items
            disks.new.items slots.old slots.new }
    {
        let answer = self.act(alloc, disks, command)?;
        self.settle_note(slots)?;
        Ok(MemberAnswer::Plain(answer))
    }

    // Why a line of another's number is refused.
    fn elsewhere(&self, by: u8) -> Refusal
        ensures { result ≡ elsewhere (length self.now.world.whole.members) by }
    {
        if 1 <= by && by <= self.members().count() {
            Refusal::Down
        } else {
            Refusal::Member
        }
    }

    // The other member that its own is to ask, where the command says so.
    fn peer_asked(&self, command: &Command) -> Option<u8>
        requires member { IsMember (length self.now.world.whole.members) self.now.me }
        requires own { performer command.now ≡ Some self.now.me }
        ensures some { IfSome result (λ to. command.now ≡ AskCommand self.now.me to) }
        ensures none { IfNone result (AsksNoPeer (length self.now.world.whole.members) self.now.me command.now) }
    {
        match command {
            Command::Ask { to, .. } if self.is_peer(*to) => Some(*to),
            _ => None,
        }
    }

    // Whether it is the number of another member.
    fn is_peer(&self, to: u8) -> bool
        requires { IsMember (length self.now.world.whole.members) self.now.me }
        ensures { IsTrue result ↔ ArePeers (length self.now.world.whole.members) self.now.me to }
    {
        1 <= to && to <= self.members().count() && to != self.member()
    }
}

/// The answer that refuses.
pub(crate) fn refused(refusal: Refusal) -> MemberAnswer
    ensures { result ≡ refused refusal }
{
    MemberAnswer::Plain(Answer::Refused(refusal))
}

// Of whom a command asks something.
fn performer(command: &Command) -> u8
    requires { IsOwnCommand command.now }
    ensures { performer command.now ≡ Some result }
{
    match command {
        Command::Change { by, .. }
        | Command::Look { by, .. }
        | Command::Collect { by }
        | Command::Ask { by, .. }
        | Command::Restart { by } => *by,
        _ => unreachable!(),
    }
}
