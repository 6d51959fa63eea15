ghost use Rattle.std.specs.Prelude.{◌≡◌, ◌≢◌, ◌+◌, ◌≤◌, ℕ, [], length, Bool, Some, None, Ok, IfErr, IfNone, IfOk, IfSome, OnErr, OnOk};
ghost use Rattle.ficus_ids.specs.Members.{IsMember};
ghost use Rattle.ficus_ids.specs.declared.refusal.Refusal.{Refusal as RefusalValue};
ghost use Rattle.ficus_path.specs.Path.{IsPath, path_from};
ghost use Rattle.ficus_runs.specs.Run.{OnlyLooks};
ghost use Rattle.ficus_script.specs.Arguments.{IsReplicaNumber};
ghost use Rattle.ficus_script.specs.Command.{IsCommand, IsStep};
ghost use Rattle.ficus_top.specs.Graft.Answered.{sent_so};
ghost use Rattle.ficus_top.specs.Graft.Calls.{FindsRefusal, SendsCommand};
ghost use Rattle.ficus_top.specs.Graft.Following.{Halts, IsRefusedBy, LineHalts, Passes, Reaches, course_path};
ghost use Rattle.ficus_top.specs.Graft.Paths.{ArePassed, along, names_entries, paths_of, rest_behind};
ghost use Rattle.ficus_top.specs.Graft.Route.{ls, sending};
ghost use Rattle.ficus_top.specs.Graft.Runs.{AnswersLine, AreHeld, ForeseeFew, HaveRoom, MayBeCut, Sends, StopsLine};
ghost use Rattle.ficus_loop.specs.Tally.{is_refusal};
ghost use Rattle.ficus_world.specs.Follows.{TellsFor};
ghost use Rattle.ficus_world.specs.World.{event_limit, most_unforeseen};

use crate::graft::behind::{base_behind, command_behind, path_of};
use crate::graft::courses::{Course, Courses, courses_of};
use crate::graft::crossing::first_crossing;
use crate::graft::following::{End, Stop};
use ficus_commands::Look;
use ficus_disk::{Disk, Pair};
use ficus_ids::{Memory, Refusal};
use ficus_keeper::Keep;
use ficus_outside::Link;
use ficus_path::{Base, Part};
use ficus_script::{Answer, Command, VolumeLine};
use ficus_world::World;
use std::alloc::Global;
use std::marker::Model;

/// Several volumes, 1 to 4, numbered from 1, each a world of its own. A part `%V` of a path leads to the root of volume
/// V, if there is one of this number: the directory under that name is looked at, and nothing more is asked of it. The
/// disks are lent to each call.
#[derive(Drop)]
pub struct Volumes<K: Keep + Drop, L: Link + Drop> {
    worlds: Vec<World<K, L>>,
}

impl<K: Keep + Drop, L: Link + Drop> Model for Volumes<K, L> {
    ghost use Rattle.std.specs.Prelude.{List, length};
    ghost use Rattle.ficus_world.specs.World.{Backed};
    ghost use Rattle.ficus_top.specs.Graft.Crossing.{AreFew};

    ghost Value = { List (Backed K) };

    ghost view = { λ v. v.worlds.items };

    ghost invariant = { λ v. AreFew (length v.worlds.items) };
}

impl<K: Keep + Drop, L: Link + Drop> Volumes<K, L> {
    ghost use Rattle.ficus_top.specs.Graft.Crossing.{AreFew};

    /// The volumes of these worlds, which are numbered in this order.
    pub fn new(worlds: Vec<World<K, L>>) -> Volumes<K, L>
        requires { AreFew (length worlds.items) }
        ensures { result ≡ worlds.items }
    {
        Volumes { worlds }
    }

    /// The worlds of the volumes, in the order of their numbers.
    pub fn worlds(&self) -> &[World<K, L>]
        ensures { result.now ≡ self.now }
    {
        self.worlds.as_slice()
    }

    /// Answers one line. Its paths are followed from its volume on, the first path first: at each part that leads to a
    /// volume the directory there is looked at, and the path goes on from the root of that volume. The last part of a
    /// path that names an entry, or is new, leads nowhere. The first look that is refused ends the line with its
    /// refusal. Where the paths end in different volumes, nothing more is done, and the answer is the refusal
    /// `Crossing`. Else the command is carried out in the volume where they end, with what is left of its paths; one
    /// without a path, in the line's volume. Only the volume to which something was sent last may change.
    ///
    /// Each look, and the command, comes to what the members of its volume hold, whatever the worlds stand for and over
    /// any link.
    ///
    /// `Memory` comes where memory was refused. Then nothing has changed; or the paths were followed, and the command
    /// has done in its volume what one leaves that is cut short.
    pub fn step<D: Disk>(
        &mut self,
        alloc: Global,
        disks: &mut Vec<Vec<Pair<D>>>,
        line: &VolumeLine,
    ) -> Result<Answer, Memory>
        requires volume { IsMember (length self.old) line.now.volume }
        requires command { IsCommand line.now.command }
        requires step { IsStep line.now.command }
        requires room { HaveRoom event_limit self.old }
        requires held { AreHeld K.Keep D.Disk self.old disks.old.items }
        ensures answers { IfOk result (λ answer. AnswersLine L.tells (L.tells × TellsFor D.tells line.now.command)
            K.Keep D.Disk line.now answer self.old self.new disks.old.items disks.new.items) }
        ensures memory { OnErr result (StopsLine L.tells K.Keep D.Disk line.now self.old self.new disks.old.items
            disks.new.items) }
        ensures held { AreHeld K.Keep D.Disk self.new disks.new.items }
        ensures grows { (limit : ℕ) → ForeseeFew limit self.old → ForeseeFew (limit + most_unforeseen) self.new }
        ensures count { length self.new ≡ length self.old }
    {
        match self.answer(alloc, disks, line) {
            Ok(answer) => Ok(answer),
            Err(Stop::Refused(refusal)) => Ok(Answer::Refused(refusal)),
            Err(Stop::Memory) => Err(Memory),
        }
    }

    // Answers the line, or says why nothing more was sent for it.
    fn answer<D: Disk>(
        &mut self,
        alloc: Global,
        disks: &mut Vec<Vec<Pair<D>>>,
        line: &VolumeLine,
    ) -> Result<Answer, Stop>
        requires volume { IsMember (length self.old) line.now.volume }
        requires command { IsCommand line.now.command }
        requires step { IsStep line.now.command }
        requires room { HaveRoom event_limit self.old }
        requires held { AreHeld K.Keep D.Disk self.old disks.old.items }
        ensures answers { IfOk result (λ answer. AnswersLine L.tells (L.tells × TellsFor D.tells line.now.command)
            K.Keep D.Disk line.now answer self.old self.new disks.old.items disks.new.items) }
        ensures halts { IfErr result (λ stop. LineHalts L.tells (L.tells × TellsFor D.tells line.now.command) K.Keep
            D.Disk line.now stop self.old self.new disks.old.items disks.new.items) }
        ensures stays { OnErr result (StopsLine L.tells K.Keep D.Disk line.now self.old self.new disks.old.items
            disks.new.items) }
        ensures held { AreHeld K.Keep D.Disk self.new disks.new.items }
        ensures grows { (limit : ℕ) → ForeseeFew limit self.old → ForeseeFew (limit + most_unforeseen) self.new }
        ensures count { length self.new ≡ length self.old }
    {
        match courses_of(&line.command) {
            Courses::None => Ok(self.send(alloc, disks, line.volume, &line.command)?),
            Courses::One(by, course) => {
                let end = self.follow(alloc, disks, line.volume, by, &course)?;
                Ok(self.arrive(alloc, disks, end.volume, &line.command, end.passed, 0)?)
            }
            Courses::Two(by, first, second) => {
                let end = self.follow(alloc, disks, line.volume, by, &first)?;
                let other = self.follow(alloc, disks, line.volume, by, &second)?;
                if end.volume != other.volume {
                    return Err(Stop::Refused(Refusal::Crossing));
                }
                Ok(self.arrive(
                    alloc,
                    disks,
                    end.volume,
                    &line.command,
                    end.passed,
                    other.passed,
                )?)
            }
        }
    }

    // Sends the command, with what is left of its paths, to the volume. One whose paths have led nowhere is sent as it
    // is.
    fn arrive<D: Disk>(
        &mut self,
        alloc: Global,
        disks: &mut Vec<Vec<Pair<D>>>,
        volume: u8,
        command: &Command,
        first: usize,
        second: usize,
    ) -> Result<Answer, Memory>
        requires volume { IsMember (length self.old) volume }
        requires command { IsCommand command.now }
        requires step { IsStep command.now }
        requires paths { paths_of command.now ≢ [] }
        requires passed { ArePassed (names_entries command.now) first second (paths_of command.now) }
        requires room { HaveRoom event_limit self.old }
        requires held { AreHeld K.Keep D.Disk self.old disks.old.items }
        ensures sends { IfOk result (λ answer. Sends L.tells (L.tells × TellsFor D.tells command.now) K.Keep D.Disk
            (sent_so volume (along (rest_behind first) (rest_behind second) command.now) answer) self.old self.new
            disks.old.items disks.new.items) }
        ensures memory { OnErr result (MayBeCut L.tells K.Keep D.Disk volume
            (along (rest_behind first) (rest_behind second) command.now) self.old self.new disks.old.items
            disks.new.items) }
        ensures held { AreHeld K.Keep D.Disk self.new disks.new.items }
        ensures grows { (limit : ℕ) → ForeseeFew limit self.old → ForeseeFew (limit + most_unforeseen) self.new }
        ensures count { length self.new ≡ length self.old }
    {
        if first == 0 && second == 0 {
            return self.send(alloc, disks, volume, command);
        }
        let rest = command_behind(alloc, command, first, second)?;
        self.send(alloc, disks, volume, &rest)
    }

    // Follows the course from the volume on. Its looks change nothing.
    fn follow<D: Disk>(
        &mut self,
        alloc: Global,
        disks: &mut Vec<Vec<Pair<D>>>,
        volume: u8,
        by: u8,
        course: &Course<'_>,
    ) -> Result<End, Stop>
        requires volume { IsMember (length self.old) volume }
        requires number { IsReplicaNumber by }
        requires path { IsPath (course_path course.now) }
        requires most { course.now.most ≤ length course.now.parts.now }
        requires room { HaveRoom event_limit self.old }
        requires held { AreHeld K.Keep D.Disk self.old disks.old.items }
        ensures same { self.new ≡ self.old }
        ensures same_disks { disks.new.items ≡ disks.old.items }
        ensures reaches { IfOk result (λ end. Reaches L.tells K.Keep D.Disk by volume course.now end self.old
            disks.old.items) }
        ensures halts { IfErr result (λ stop. Halts L.tells K.Keep D.Disk by volume course.now stop self.old
            disks.old.items) }
    {
        let count = self.count();
        let parts = course.parts;
        let mut end = End { volume, passed: 0 };
        while let Some(crossing) = first_crossing(&parts[end.passed..course.most], count) {
            let behind = end.passed + crossing.place + 1;
            let base = base_behind(course.base, end.passed);
            self.look(
                alloc,
                disks,
                end.volume,
                by,
                base,
                &parts[end.passed..behind],
            )?;
            end = End {
                volume: crossing.volume,
                passed: behind,
            };
        }
        Ok(end)
    }

    // How many volumes there are.
    fn count(&self) -> u8
        ensures { result ≡ length self.now }
    {
        self.worlds.len() as u8
    }

    // Looks at the directory at the path from the base along the parts. That changes nothing.
    fn look<D: Disk>(
        &mut self,
        alloc: Global,
        disks: &mut Vec<Vec<Pair<D>>>,
        volume: u8,
        by: u8,
        base: Base,
        parts: &[Part],
    ) -> Result<(), Stop>
        requires volume { IsMember (length self.old) volume }
        requires number { IsReplicaNumber by }
        requires path { IsPath (path_from base parts.now) }
        requires room { HaveRoom event_limit self.old }
        requires held { AreHeld K.Keep D.Disk self.old disks.old.items }
        ensures same { self.new ≡ self.old }
        ensures same_disks { disks.new.items ≡ disks.old.items }
        ensures passes { OnOk result (Passes L.tells K.Keep D.Disk (sending volume (ls by (path_from base parts.now)))
            self.old disks.old.items) }
        ensures refused { IfErr result (λ stop. IsRefusedBy L.tells K.Keep D.Disk
            (sending volume (ls by (path_from base parts.now))) stop self.old disks.old.items) }
    {
        let path = path_of(alloc, base, parts)?;
        let command = Command::Look {
            by,
            look: Look::Ls { path },
        };
        unless_refused(self.refusal_to(alloc, disks, volume, &command))
    }

    // Sends the command to the volume, and finds out why it is refused, if it is.
    fn refusal_to<D: Disk>(
        &mut self,
        alloc: Global,
        disks: &mut Vec<Vec<Pair<D>>>,
        volume: u8,
        command: &Command,
    ) -> Result<Option<Refusal>, Memory>
        requires volume { IsMember (length self.old) volume }
        requires command { IsCommand command.now }
        requires step { IsStep command.now }
        requires room { HaveRoom event_limit self.old }
        requires held { AreHeld K.Keep D.Disk self.old disks.old.items }
        ensures finds { IfOk result (λ refusal. FindsRefusal L.tells K.Keep D.Disk volume command.now refusal self.old
            self.new disks.old.items disks.new.items) }
        ensures same { OnlyLooks command.now → (self.new ≡ self.old) × (disks.new.items ≡ disks.old.items) }
    {
        let answer = self.send(alloc, disks, volume, command)?;
        Ok(refusal_of(&answer))
    }

    // Sends the command to the volume.
    fn send<D: Disk>(
        &mut self,
        alloc: Global,
        disks: &mut Vec<Vec<Pair<D>>>,
        volume: u8,
        command: &Command,
    ) -> Result<Answer, Memory>
        requires volume { IsMember (length self.old) volume }
        requires command { IsCommand command.now }
        requires step { IsStep command.now }
        requires room { HaveRoom event_limit self.old }
        requires held { AreHeld K.Keep D.Disk self.old disks.old.items }
        ensures { SendsCommand L.tells K.Keep D.Disk volume command.now result self.old self.new disks.old.items
            disks.new.items }
    {
        let index = volume as usize - 1;
        self.worlds[index].step(alloc, &mut disks[index], command)
    }
}

// Done, unless it was found out why it is refused, or memory was wanted for that.
fn unless_refused(found: Result<Option<Refusal>, Memory>) -> Result<(), Stop>
    ensures done { OnOk result (found ≡ Ok None) }
    ensures refused { IfErr result (λ stop. (refusal : RefusalValue) → stop ≡ Stop.Refused refusal
        → found ≡ Ok (Some refusal)) }
{
    match found? {
        Some(refusal) => Err(Stop::Refused(refusal)),
        None => Ok(()),
    }
}

// Why it is a refusal, if it is one.
fn refusal_of(answer: &Answer) -> Option<Refusal>
    ensures found { IfSome result (λ refusal. answer.now ≡ Answer.Refused refusal) }
    ensures none { IfNone result (is_refusal answer.now ≡ Bool.false) }
{
    match answer {
        Answer::Refused(refusal) => Some(*refusal),
        Answer::Done
        | Answer::Made(_)
        | Answer::Mail(_)
        | Answer::Mails(..)
        | Answer::Part { .. }
        | Answer::Collected { .. }
        | Answer::Told(_)
        | Answer::Alike(_)
        | Answer::Swept { .. }
        | Answer::Why(_) => None,
    }
}
