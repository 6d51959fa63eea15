ghost use Rattle.std.specs.Prelude.{◌≡◌, ◌≢◌, ◌⊎◌, ◌+◌, ◌<◌, ◌++◌, ℕ, Ok, Err, List, IfErr, IfOk, IsErrOf, OnErr, OnOk, length};
ghost use Rattle.ficus_ids.specs.Members.{IsMember};
ghost use Rattle.ficus_ids.specs.declared.refusal.Refusal.TheVariants.{BadMessage as IsBad, Memory as OutOfMemory, Mixed as IsMixed};
ghost use Rattle.ficus_model.specs.declared.event.Event.TheVariants.{Take as Takes};
ghost use Rattle.ficus_codec.specs.Formats.{tables_bytes};
ghost use Rattle.ficus_durable_state.specs.Tables.{FitsTables};
ghost use Rattle.ficus_entry.specs.declared.entry.Entry.{Entry as EntryValue};
ghost use Rattle.ficus_file.specs.declared.file.FileReplica.{FileReplica as FileValue};
ghost use Rattle.ficus_runs.specs.Sequence.{unchanged};
ghost use Rattle.ficus_world.specs.Disks.{CarriedOn, IsBacked};
ghost use Rattle.ficus_world.specs.Acts.{Acts};
ghost use Rattle.ficus_runs.specs.Numbered.{IsNumbered};
ghost use Rattle.ficus_world.specs.Moves.{FindsTaker, GivesTaking, IsPlaced, TakesPiece, TakesSpelled, gathered, parts_held, spelled_with};
ghost use Rattle.ficus_world.specs.World.{IsUpIn, event_limit, most_events};
ghost use Rattle.ficus_wire.specs.Message.{FitsMessage, piece_of};
ghost use Rattle.ficus_wire.specs.Parts.{HasPart, no_parts, with_part};
ghost use Rattle.ficus_keeper.specs.Framed.{empty_head};
ghost use Rattle.ficus_record.specs.Record.{accept_front};
ghost use Rattle.ficus_opening.specs.declared.member.Member.{Member as MemberValue};
ghost use Rattle.ficus_world.specs.declared.post.Behind.{Behind as BehindValue};
ghost use Rattle.ficus_world.specs.declared.taking.Fitting.TheVariants.{TheLast};

use crate::World;
use crate::exchange::Delivery;
use crate::group::Group;
use crate::member::{add_piece, is_up};
use ficus_codec::{Known, read_all_rows};
use ficus_disk::{Disk, Pair};
use ficus_entry::SharedEntry;
use ficus_file::SharedFile;
use ficus_formats::{ReadFault, Reader, put_bytes};
use ficus_ids::{Listed, Memory, Refusal};
use ficus_keeper::Keep;
use ficus_model::Event;
use ficus_opening::Pending;
use ficus_outside::Link;
use ficus_script::Answer;
use ficus_stable_storage::{frame_accept_front, framed_tables};
use ficus_wire::{Parts, PieceHead};
use std::alloc::Global;

// What a member comes to that takes tables, and the record of that, in a frame.
#[derive(Drop)]
struct Taking {
    next: Pending,
    noted: Vec<u8>,
}

/// What a piece is to what a member holds of the answer.
#[derive(Clone, Copy)]
pub(crate) enum Fitting {
    /// It is held already, as one of so many.
    Again { have: u32 },
    /// It is one of several that are missing; with it so many are held.
    OneMore { have: u32 },
    /// It is the last one that is missing.
    TheLast,
}

impl<K: Keep + Drop, L: Link + Drop> World<K, L> {
    /// Takes a piece of an answer, or refuses it. All memory is taken before anything changes.
    pub(crate) fn take_piece<D: Disk>(
        &mut self,
        alloc: Global,
        disks: &mut Vec<Pair<D>>,
        came: Delivery,
        head: PieceHead,
        bytes: &[u8],
    ) -> Result<Answer, Refusal>
        requires room { length self.old.whole.events < event_limit + most_events }
        requires backed { IsBacked K.Keep D.Disk self.old disks.old.items }
        requires mail { IsMember (length self.old.whole.post.behind) came.mail }
        requires fits { FitsMessage (length self.old.whole.members) (piece_of head bytes.now) }
        requires to { came.to ≡ head.route.to }
        ensures takes { CarriedOn K.Keep D.Disk (TakesPiece came head bytes.now) result self.old.whole
            self.new.whole disks.old.items disks.new.items }
        ensures acts { Acts K.Keep D.Disk 1 result self.old self.new disks.old.items disks.new.items }
    {
        match self.group.fitting(came, head)? {
            Fitting::Again { have } => Ok(Answer::Part {
                have,
                of: head.pieces,
            }),
            Fitting::OneMore { have } => {
                self.group.gather(alloc, came, head, bytes)?;
                Ok(Answer::Part {
                    have,
                    of: head.pieces,
                })
            }
            Fitting::TheLast => self.take_last(alloc, disks, came, head, bytes),
        }
    }

    // Takes the tables that a piece and those that are held spell together, or refuses them. All memory is taken before
    // anything changes, and what was read is given up before it is saved.
    fn take_last<D: Disk>(
        &mut self,
        alloc: Global,
        disks: &mut Vec<Pair<D>>,
        came: Delivery,
        head: PieceHead,
        bytes: &[u8],
    ) -> Result<Answer, Refusal>
        requires room { length self.old.whole.events < event_limit + most_events }
        requires backed { IsBacked K.Keep D.Disk self.old disks.old.items }
        requires mail { IsMember (length self.old.whole.post.behind) came.mail }
        requires up { IsUpIn self.old.whole came.to }
        requires index { head.index < head.pieces }
        requires last { (was : MemberValue) → IsNumbered self.old.whole.members came.to was
            → IsPlaced (parts_held was.parts head) head.index TheLast }
        ensures takes { (was : MemberValue) → IsNumbered self.old.whole.members came.to was
            → CarriedOn K.Keep D.Disk (TakesSpelled came head.index (spelled_with was head bytes.now)) result
            self.old.whole self.new.whole disks.old.items disks.new.items }
        ensures acts { Acts K.Keep D.Disk 1 result self.old self.new disks.old.items disks.new.items }
    {
        let Taking { next, noted } = self.group.taking(alloc, came, head, bytes)?;
        self.save(disks, came.to, next, noted)?;
        Ok(Answer::Done)
    }
}

impl<L: Link + Drop> Group<L> {
    // What a member comes to that takes the tables which a piece and those that it holds spell together, or why it
    // takes none. What it holds already is shared. They are read out of the record of their taking.
    fn taking(
        &self,
        alloc: Global,
        came: Delivery,
        head: PieceHead,
        bytes: &[u8],
    ) -> Result<Taking, Refusal>
        requires room { length self.now.events < event_limit + most_events }
        requires up { IsUpIn self.now came.to }
        requires mail { IsMember (length self.now.post.behind) came.mail }
        requires index { head.index < head.pieces }
        requires last { (was : MemberValue) → IsNumbered self.now.members came.to was
            → IsPlaced (parts_held was.parts head) head.index TheLast }
        ensures { (was : MemberValue) → IsNumbered self.now.members came.to was
            → GivesTaking came head.index (spelled_with was head bytes.now) self.now result }
    {
        let noted = self.joined(alloc, came.to, head, bytes)?;
        let known = self.known_to(came.to)?;
        let (entries, files) = rows(alloc, framed_tables(&noted), &known)?;
        let replica = &self.member(came.to).replica;
        let taken = replica.accept_rows(
            alloc,
            came.from,
            came.ask,
            entries.items(),
            files.items(),
        )?;
        let serve = self.post.behind(came.mail).position;
        let event = Event::Accept {
            by: came.to,
            serve,
            piece: head.index,
        };
        Ok(Taking {
            next: Pending {
                replica: taken,
                event,
            },
            noted,
        })
    }

    // The record of the taking of the tables which a piece and those that a member holds spell together, in a frame.
    fn joined(
        &self,
        alloc: Global,
        to: u8,
        head: PieceHead,
        bytes: &[u8],
    ) -> Result<Vec<u8>, Memory>
        requires to { IsMember (length self.now.members) to }
        requires index { head.index < head.pieces }
        requires last { (was : MemberValue) → IsNumbered self.now.members to was
            → IsPlaced (parts_held was.parts head) head.index TheLast }
        ensures { (was : MemberValue) → IsNumbered self.now.members to was
            → IfOk result (λ noted. noted.items ≡ empty_head ++ accept_front ++ spelled_with was head bytes.now) }
    {
        let mut noted = frame_accept_front(alloc)?;
        match &self.member(to).parts {
            Some(held) => held.put_whole_with(&mut noted, head.index, bytes)?,
            None => put_bytes(&mut noted, bytes)?,
        }
        Ok(noted)
    }

    // What a piece is to what its receiver holds of the answer, or why it isn't taken.
    fn fitting(&self, came: Delivery, head: PieceHead) -> Result<Fitting, Refusal>
        requires to { IsMember (length self.now.members) came.to }
        requires index { head.index < head.pieces }
        ensures fits { IfOk result (λ fitting. (was : MemberValue)
            × FindsTaker came head self.now (Ok was) (unchanged self.now)
            × IsPlaced (parts_held was.parts head) head.index fitting) }
        ensures refused { IfErr result (λ refusal. (refusal ≢ OutOfMemory)
            × FindsTaker came head self.now (Err refusal) (unchanged self.now)) }
    {
        let member = self.member(came.to);
        if !is_up(member) {
            return Err(Refusal::Down);
        }
        if !member.replica.waits_for(came.from, came.ask) {
            return Err(Refusal::Stale);
        }
        fitting_in(&member.parts, head)
    }

    // Keeps a piece beside those that its receiver holds. All memory is taken before anything changes.
    fn gather(
        &mut self,
        alloc: Global,
        came: Delivery,
        head: PieceHead,
        bytes: &[u8],
    ) -> Result<(), Memory>
        requires room { length self.old.events < event_limit + most_events }
        requires mail { IsMember (length self.old.post.behind) came.mail }
        requires to { IsMember (length self.old.members) came.to }
        requires missing { (was : MemberValue) → IsNumbered self.old.members came.to was
            → HasPart (parts_held was.parts head) head.index → ⊥ }
        requires index { (was : MemberValue) → IsNumbered self.old.members came.to was
            → head.index < (parts_held was.parts head).pieces }
        ensures gathers { OnOk result ((was : MemberValue) (place : BehindValue)
            → IsNumbered self.old.members came.to was → IsNumbered self.old.post.behind came.mail place
            → self.new ≡ gathered self.old came.to was (with_part (parts_held was.parts head) head.index bytes.now)
            (Takes came.to place.position head.index)) }
        ensures memory { OnErr result (self.new ≡ self.old) }
    {
        self.history.reserve(1)?;
        let serve = self.post.behind(came.mail).position;
        add_piece(alloc, &mut self.members, came.to, head, bytes)?;
        self.history.push(Event::Take {
            by: came.to,
            serve,
            piece: head.index,
        });
        Ok(())
    }

    // The rows of the member.
    fn known_to(&self, to: u8) -> Result<Known, Memory>
        requires { IsMember (length self.now.members) to }
        ensures { IfOk result (λ known. known ≡ length self.now.members) }
    {
        let saved = &self.member(to).replica.saved;
        Known::of(&saved.entries, &saved.files, saved.members)
    }
}

// What a piece is to what is held of the answer, or why it can't be joined with that.
fn fitting_in(parts: &Option<Parts>, head: PieceHead) -> Result<Fitting, Refusal>
    requires { head.index < head.pieces }
    ensures fits { IfOk result (λ fitting. ((parts_held parts.now head).state ≡ head.state)
        × ((parts_held parts.now head).pieces ≡ head.pieces)
        × IsPlaced (parts_held parts.now head) head.index fitting) }
    ensures mixed { IsErrOf result IsMixed → (parts_held parts.now head).state ≢ head.state }
    ensures otherwise { IsErrOf result IsBad → ((parts_held parts.now head).state ≡ head.state)
        × ((parts_held parts.now head).pieces ≢ head.pieces) }
    ensures refused { IfErr result (λ refusal. (refusal ≡ IsMixed) ⊎ (refusal ≡ IsBad)) }
{
    let Some(held) = parts else {
        return Ok(first_of(head.pieces));
    };
    if held.state() != head.state {
        return Err(Refusal::Mixed);
    }
    if held.pieces() != head.pieces {
        return Err(Refusal::BadMessage);
    }
    Ok(place_in(held, head.index))
}

// What the first piece of so many is.
fn first_of(pieces: u32) -> Fitting
    ensures { (state index : ℕ) → index < pieces → IsPlaced (no_parts state pieces) index result }
{
    if pieces == 1 {
        Fitting::TheLast
    } else {
        Fitting::OneMore { have: 1 }
    }
}

// What the piece is to those that are held, of the same state.
fn place_in(held: &Parts, index: u32) -> Fitting
    requires { index < held.now.pieces }
    ensures { IsPlaced held.now index result }
{
    let have = held.len();
    if held.has(index) {
        Fitting::Again { have }
    } else if held.lacks_only(index) {
        Fitting::TheLast
    } else {
        Fitting::OneMore { have: have + 1 }
    }
}

// The rows of the tables that the bytes spell, from the first to the last. Those that are known are shared.
fn rows(
    alloc: Global,
    tables: &[u8],
    known: &Known,
) -> Result<(Listed<SharedEntry>, Listed<SharedFile>), Refusal>
    ensures fits { IfOk result (λ rows. FitsTables known.now rows.0 rows.1) }
    ensures spelled { IfOk result (λ rows. tables.now ≡ tables_bytes known.now rows.0 rows.1) }
    ensures refused { IfErr result (λ refusal. refusal ≢ OutOfMemory → (refusal ≡ IsBad)
        × ((entries : List EntryValue) (files : List FileValue) → FitsTables known.now entries files
        → tables.now ≡ tables_bytes known.now entries files → ⊥)) }
{
    match read_all_rows(alloc, Reader::new(tables), known) {
        Ok(rows) => Ok(rows),
        Err(fault) => Err(refusal_of(fault)),
    }
}

// Bytes that spell no tables are told as a bad message; want of memory, and nothing else, as what it is.
fn refusal_of(fault: ReadFault) -> Refusal
    ensures unspelled { fault ≡ ReadFault.Unspelled → result ≡ IsBad }
    ensures memory { fault ≡ ReadFault.Memory → result ≡ OutOfMemory }
{
    match fault {
        ReadFault::Unspelled => Refusal::BadMessage,
        ReadFault::Memory => Refusal::Memory,
    }
}
