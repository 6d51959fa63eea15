ghost use Rattle.std.specs.Bool.{OnFalse};
ghost use Rattle.std.specs.Prelude.{◌≡◌, ◌-◌, ◌^◌, ◌<◌, ◌↔◌, [], None, IsErrOf, IsTrue, OnOk};
ghost use Rattle.ficus_keeper.specs.Calls.{AreAsBefore, CountsMaking, Keeps, Makes, Spares};
ghost use Rattle.ficus_note.specs.Calls.{IsPrepared, IsReady, Opens, Saves};
ghost use Rattle.ficus_note.specs.Noted.{note_bytes};
ghost use Rattle.ficus_two_slots.specs.Slots.{IsRegular, kept_in};

use crate::asked::{NOTE_SIZE, spelled};
use crate::reading::read_note;
use crate::{Asked, NoteFault};
use ficus_disk::{Disk, Pair};
use ficus_faults::Failed;
use ficus_ids::Memory;
use ficus_keeper::{Keep, MakeFault};
use ficus_two_slots::TwoSlot;
use std::alloc::Global;

/// The note of a member's open ask, and the keeper of its two slots. Whatever stops a save, the disks hold the note
/// before it, or the one that it saves.
#[derive(Drop)]
pub struct Note {
    keeper: TwoSlot,
    generation: u64,
    asked: Option<Asked>,
}

impl Note {
    /// Notes on two empty disks that no ask is open.
    pub fn make<D: Disk>(alloc: Global, disks: &mut Pair<D>) -> Result<(), MakeFault>
        requires empty_a { D.tells → D.seen disks.old.a ≡ [] }
        requires empty_b { D.tells → D.seen disks.old.b ≡ [] }
        ensures told { D.tells → Makes kept_in IsRegular D.seen D.may_leave D.moment D.left_since (note_bytes None)
            disks.old disks.new result }
        ensures other { disks.new.b ≡ disks.old.b }
        ensures counts { CountsMaking D.faults D.armings disks.old disks.new result }
        ensures refused { IsErrOf result MakeFault.Memory → AreAsBefore D.Disk disks.old disks.new }
    {
        TwoSlot::make(alloc, disks, &spelled(None))
    }

    /// Reads what is noted, and writes nothing. `NoNote` comes exactly where nothing is kept, and `Damaged` where what
    /// is kept is no note.
    pub fn open<D: Disk>(alloc: Global, disks: &mut Pair<D>) -> Result<Note, NoteFault>
        ensures { Opens D.Disk disks.old disks.new result }
    {
        let (keeper, opened) = TwoSlot::open(alloc, disks)?;
        let asked = read_note(opened.image.items())?;
        Ok(Note {
            keeper,
            generation: opened.generation,
            asked,
        })
    }

    /// The ask that is noted as open.
    pub fn asked(&self) -> Option<Asked>
        ensures { result ≡ self.now.asked }
    {
        self.asked
    }

    /// Whether no further note can be saved, since generations end at 2^64 - 1.
    pub fn is_full(&self) -> bool
        ensures full { IsTrue result ↔ (self.now.generation ≡ 2 ^ 64 - 1) }
        ensures more { OnFalse result (self.now.generation < 2 ^ 64 - 1) }
    {
        self.generation == u64::MAX
    }

    /// Takes all memory that the next save needs, whatever it notes. What is noted stays, also where memory is refused.
    pub fn prepare<D: Disk>(&mut self, disks: &mut Pair<D>) -> Result<(), Memory>
        ensures room { OnOk result (IsPrepared D.room self.new disks.new) }
        ensures ready { D.tells → IsReady D.Disk self.old disks.old → IsReady D.Disk self.new disks.new }
        ensures asked { self.new.asked ≡ self.old.asked }
        ensures generation { self.new.generation ≡ self.old.generation }
        ensures keeps { Keeps D.tells D.tells_moments D.seen D.may_leave D.moment D.left_since disks.old disks.new }
        ensures spares { Spares D.faults D.armings D.tells_fuse D.image D.fuse disks.old disks.new }
    {
        self.keeper.prepare(disks, NOTE_SIZE as u64)
    }

    /// Notes this as the open ask, or that none is. Where it is noted already no disk is called. Takes no memory. After
    /// one that fails nothing is promised but that the disks hold the note before it, or this: they are opened anew.
    pub fn save<D: Disk>(&mut self, disks: &mut Pair<D>, noted: Option<Asked>) -> Result<(), Failed>
        requires ready { D.tells → IsReady D.Disk self.old disks.old }
        requires prepared { IsPrepared D.room self.old disks.old }
        requires next { self.old.generation < 2 ^ 64 - 1 }
        ensures saves { Saves D.Disk noted self.old self.new disks.old disks.new result }
        ensures same { noted ≡ self.old.asked → (self.new ≡ self.old) × (disks.new ≡ disks.old) }
    {
        if self.asked == noted {
            return Ok(());
        }
        self.commit(disks, noted)
    }

    // Notes this in place of what is noted.
    fn commit<D: Disk>(&mut self, disks: &mut Pair<D>, noted: Option<Asked>) -> Result<(), Failed>
        requires ready { D.tells → IsReady D.Disk self.old disks.old }
        requires prepared { IsPrepared D.room self.old disks.old }
        requires next { self.old.generation < 2 ^ 64 - 1 }
        ensures { Saves D.Disk noted self.old self.new disks.old disks.new result }
    {
        let generation = self.generation + 1;
        self.generation = generation;
        self.asked = noted;
        self.keeper.commit(disks, generation, &spelled(noted))
    }
}
