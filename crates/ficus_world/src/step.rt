ghost use Rattle.std.specs.Prelude.{◌≡◌, ◌≢◌, ◌<◌, Err, length, IfOk, OnErr, if◌then◌else◌};
ghost use Rattle.ficus_ids.specs.declared.id.Id.{Id as IdValue};
ghost use Rattle.ficus_ids.specs.declared.refusal.Refusal.TheVariants.{Memory as OutOfMemory};
ghost use Rattle.ficus_runs.specs.Answers.{answer_as, answer_to};
ghost use Rattle.ficus_script.specs.declared.answer.Answer.TheVariants.{Done, Made};
ghost use Rattle.ficus_world.specs.Disks.{IsBacked};
ghost use Rattle.ficus_world.specs.World.{event_limit};
ghost use Rattle.ficus_world.specs.Calls.{Does, DoesAll, Steps};

use crate::World;
use crate::mails::{Mails, mails_in};
use crate::pairs::arm_at;
use ficus_commands::{Change, Look};
use ficus_disk::{Disk, Pair};
use ficus_ids::{Id, Memory, Refusal};
use ficus_keeper::Keep;
use ficus_model::{Event, Op};
use ficus_opening::Pending;
use ficus_outside::Link;
use ficus_record::Record;
use ficus_script::{Answer, Command};
use ficus_stable_storage::{frame_change, frame_record};
use std::alloc::Global;

impl<K: Keep + Drop, L: Link + Drop> World<K, L> {
    ghost use Rattle.ficus_commands.specs.Change.{HasFitPaths};
    ghost use Rattle.ficus_script.specs.Command.{IsCommand, IsStep};
    ghost use Rattle.ficus_script.specs.declared.command.Command.TheVariants.{Alike as Compares, Change as Changes, Collect as Collects, Look as Looks, Pull as Pulls, Stop as StopsDisks};
    ghost use Rattle.ficus_world.specs.Stepped.{LookComesTo};

    /// Carries out one command that is one step, and answers it. What a member saves is on its disks before it is
    /// answered; where they fail, the answer is `Store`, the member is down, and what it would have saved is pending
    /// until it is restarted. After `Memory` the world is as before, but that a pull keeps what it has done: its ask,
    /// the serving of it, and the gives before.
    pub fn step<D: Disk>(
        &mut self,
        alloc: Global,
        disks: &mut Vec<Pair<D>>,
        command: &Command,
    ) -> Result<Answer, Memory>
        requires command { IsCommand command.now }
        requires step { IsStep command.now }
        requires room { length self.old.whole.events < event_limit }
        requires backed { IsBacked K.Keep D.Disk self.old disks.old.items }
        ensures { Steps L.tells K.Keep D.Disk command.now result self.old self.new disks.old disks.new }
    {
        self.settled(disks);
        let came_to = self.carry_out(alloc, disks, command);
        self.settled(disks);
        answered(came_to)
    }

    fn carry_out<D: Disk>(
        &mut self,
        alloc: Global,
        disks: &mut Vec<Pair<D>>,
        command: &Command,
    ) -> Result<Answer, Refusal>
        requires command { IsCommand command.now }
        requires step { IsStep command.now }
        requires room { length self.old.whole.events < event_limit }
        requires backed { IsBacked K.Keep D.Disk self.old disks.old.items }
        ensures { DoesAll L.tells K.Keep D.Disk command.now result self.old self.new disks.old disks.new }
    {
        match command {
            Command::Change { by, change } => self.change(alloc, disks, *by, change),
            Command::Look { by, look } => self.look(alloc, *by, look),
            Command::Collect { by } => self.collect(alloc, disks, *by),
            Command::Ask { by, to } => Ok(Answer::Mail(self.ask(alloc, disks, *by, *to)?)),
            Command::Give { mail } => self.give(alloc, disks, *mail),
            Command::Pull { by, to } => self.pull(alloc, disks, *by, *to),
            Command::Alike { by, other } => self.alike(alloc, *by, *other),
            Command::Restart { by } => self.restart(alloc, disks, *by),
            Command::Stop { by, calls, pick } => self.stop(disks, *by, *calls, *pick),
            Command::Sweep { .. } => unreachable!(),
            Command::Why { .. } => unreachable!(),
        }
    }

    fn change<D: Disk>(
        &mut self,
        alloc: Global,
        disks: &mut Vec<Pair<D>>,
        by: u8,
        change: &Change,
    ) -> Result<Answer, Refusal>
        requires new { HasFitPaths change.now }
        requires room { length self.old.whole.events < event_limit }
        requires backed { IsBacked K.Keep D.Disk self.old disks.old.items }
        ensures { Does L.tells K.Keep D.Disk 1 (Changes by change.now) result self.old self.new
            disks.old.items disks.new.items }
    {
        let replica = &self.group.up(by)?.replica;
        let number = replica.next_id();
        let next = replica.change(alloc, change)?;
        let names = names_something(&next.op);
        let noted = frame_change(alloc, &next.op)?;
        let next = Pending {
            replica: next.replica,
            event: Event::Update { by, op: next.op },
        };
        self.save(disks, by, next, noted)?;
        Ok(answer_of(names, number))
    }

    fn look(&self, alloc: Global, by: u8, look: &Look) -> Result<Answer, Refusal>
        ensures { LookComesTo L.tells self.now.whole (Looks by look.now) result }
    {
        let told = self.group.up(by)?.replica.look(alloc, look)?;
        Ok(Answer::Told(told))
    }

    fn collect<D: Disk>(
        &mut self,
        alloc: Global,
        disks: &mut Vec<Pair<D>>,
        by: u8,
    ) -> Result<Answer, Refusal>
        requires room { length self.old.whole.events < event_limit }
        requires backed { IsBacked K.Keep D.Disk self.old disks.old.items }
        ensures { Does L.tells K.Keep D.Disk 1 (Collects by) result self.old self.new
            disks.old.items disks.new.items }
    {
        let collected = self.group.up(by)?.replica.collect(alloc)?;
        let (entries, files) = (collected.entries, collected.files);
        let noted = frame_record(alloc, &Record::Collect, self.members())?;
        let next = Pending {
            replica: collected.replica,
            event: Event::Collect { by },
        };
        self.save(disks, by, next, noted)?;
        Ok(Answer::Collected { entries, files })
    }

    // An ask, and the gives of its message and of each piece of the answer to it.
    fn pull<D: Disk>(
        &mut self,
        alloc: Global,
        disks: &mut Vec<Pair<D>>,
        by: u8,
        to: u8,
    ) -> Result<Answer, Refusal>
        requires room { length self.old.whole.events < event_limit }
        requires backed { IsBacked K.Keep D.Disk self.old disks.old.items }
        ensures { DoesAll L.tells K.Keep D.Disk (Pulls by to) result self.old self.new disks.old disks.new }
    {
        self.group.up_peers(by, to)?;
        let asked = self.ask_peer(alloc, disks, by, to)?;
        self.settled(disks);
        let given = self.give(alloc, disks, asked)?;
        self.settled(disks);
        let Mails { first, count } = mails_in(&given);
        self.give_each(alloc, disks, first, count)
    }

    fn alike(&self, alloc: Global, by: u8, other: u8) -> Result<Answer, Refusal>
        ensures { LookComesTo L.tells self.now.whole (Compares by other) result }
    {
        self.group.up_peers(by, other)?;
        let one = &self.group.member(by).replica;
        let alike = one.alike(alloc, &self.group.member(other).replica)?;
        Ok(Answer::Alike(alike))
    }

    // Lets the disks of a member stop after so many calls.
    fn stop<D: Disk>(
        &mut self,
        disks: &mut Vec<Pair<D>>,
        by: u8,
        calls: u32,
        pick: u8,
    ) -> Result<Answer, Refusal>
        requires pick { pick < 4 }
        requires backed { IsBacked K.Keep D.Disk self.old disks.old.items }
        ensures { Does L.tells K.Keep D.Disk 0 (StopsDisks by calls pick) result self.old self.new
            disks.old.items disks.new.items }
    {
        if !self.group.up(by)?.fused {
            return Err(Refusal::NoFuse);
        }
        arm_at::<K, D>(disks, by, calls, pick);
        Ok(Answer::Done)
    }
}

// A refusal is an answer, but for want of memory.
fn answered(came_to: Result<Answer, Refusal>) -> Result<Answer, Memory>
    ensures answer { IfOk result (λ answer. (answer ≡ answer_as came_to) × (came_to ≢ Err OutOfMemory)) }
    ensures memory { OnErr result (came_to ≡ Err OutOfMemory) }
{
    match came_to {
        Ok(answer) => Ok(answer),
        Err(Refusal::Memory) => Err(Memory),
        Err(refusal) => Ok(Answer::Refused(refusal)),
    }
}

// Whether an update gives something a name, so that it is answered with its number.
fn names_something(op: &Op) -> bool
    ensures { (number : IdValue) → answer_to number op.now ≡ (if result then Made number else Done) }
{
    match op {
        Op::Make { .. } | Op::Link { .. } | Op::Move { .. } | Op::Adopt { .. } => true,
        Op::Remove { .. }
        | Op::Write { .. }
        | Op::Settle { .. }
        | Op::Resolve { .. }
        | Op::Discard { .. } => false,
    }
}

// The answer to an update of this number.
fn answer_of(names_something: bool, number: Id) -> Answer
    ensures { result ≡ (if names_something then Made number else Done) }
{
    if names_something {
        Answer::Made(number)
    } else {
        Answer::Done
    }
}
