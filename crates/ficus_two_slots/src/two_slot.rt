ghost use Rattle.std.specs.Prelude.{◌≡◌, ◌+◌, ◌≤◌, List, ℕ, IfOk};
ghost use Rattle.ficus_keeper.specs.Kept.{image_alone, kept_of};
ghost use Rattle.ficus_two_slots.specs.Slots.{StandsOn};
ghost use Rattle.ficus_two_slots.specs.TwoSlot.{Fits};

use crate::choosing::{Choice, choose};
use crate::reading::read_both;
use ficus_disk::{Disk, Pair};
use ficus_faults::Failed;
use ficus_ids::{Listed, Memory};
use ficus_keeper::{Keep, MakeFault, Opened, StoreFault, Wants, frame};
use ficus_slot::{reserve_range, save_slot};
use std::alloc::Global;
use std::mem;

/// A keeper with one slot on each disk of a pair. It always wants an image, and keeps no records.
#[derive(Drop)]
pub struct TwoSlot {
    // The slot in force, and on which disk it lies.
    generation: u64,
    on_a: bool,
    // Whether the gate of the other disk is closed.
    shut: bool,
    // Bytes that are committed without a frame are framed here.
    buffer: Vec<u8>,
}

impl Keep for TwoSlot {
    ghost use Rattle.std.specs.Prelude.{length, refl, vec_capacity};
    ghost use Rattle.ficus_keeper.specs.Calls.{CommitsBytes, HasRoom};
    ghost use Rattle.ficus_keeper.specs.Framed.{IsFramed, body_in};
    ghost use Rattle.ficus_keeper.specs.Kept.{Settled};
    ghost use Rattle.ficus_two_slots.specs.Committing.{IsNext, LeavesOldOrShut};
    ghost use Rattle.ficus_two_slots.specs.Slots.{IsRegular, calls_of_slots, kept_in, lies_on_a};
    ghost use Rattle.ficus_two_slots.specs.TwoSlot.{Allows, Fits, Takes, size_after, wants_image};

    ghost kept = { kept_in };

    ghost fits = { Fits };

    ghost wants_image = { wants_image };

    ghost Allows = { Allows };

    ghost Takes = { Takes };

    ghost size_of = { size_after };

    ghost calls = { calls_of_slots };

    ghost is_on_a = { lies_on_a };

    ghost Regular = { IsRegular };

    ghost none_at_first = { refl };

    fn make<D: Disk>(alloc: Global, disks: &mut Pair<D>, image: &[u8]) -> Result<(), MakeFault> {
        let mut buffer = Vec::new(alloc);
        reserve_range(&mut buffer, image.len() as u64)?;
        disks.a.reserve(image.len() as u64 + 18)?;
        frame(&mut buffer, image);
        save_slot(&mut disks.a, &mut buffer, false, 0)?;
        Ok(())
    }

    fn open<D: Disk>(alloc: Global, disks: &mut Pair<D>) -> Result<(TwoSlot, Opened), StoreFault> {
        let (a, b) = read_both(alloc, disks)?;
        match choose(&a, &b) {
            Some(choice) => Ok(opened(alloc, choice)?),
            None => Err(StoreFault::NoImage),
        }
    }

    fn wants(&self) -> Wants {
        Wants::Image
    }

    fn prepare<D: Disk>(&mut self, disks: &mut Pair<D>, length: u64) -> Result<(), Memory> {
        reserve_range(&mut self.buffer, length)?;
        self.reserve(disks, length)
    }

    fn reserve<D: Disk>(&self, disks: &mut Pair<D>, length: u64) -> Result<(), Memory> {
        disks.a.reserve(length + 18)?;
        disks.b.reserve(length + 18)
    }

    fn commit<D: Disk>(
        &mut self,
        disks: &mut Pair<D>,
        generation: u64,
        bytes: &[u8],
    ) -> Result<(), Failed>
        requires settled { D.tells → Settled Fits D.seen D.may_leave self.old disks.old }
        requires next { IsNext D.Disk generation disks.old }
        requires room { HasRoom Takes size_after D.room self.old disks.old (length bytes.now) }
        ensures saves { CommitsBytes kept_in Fits wants_image calls_of_slots lies_on_a IsRegular D.Disk generation
            bytes.now self.old self.new disks.old disks.new result }
        ensures tails { LeavesOldOrShut D.Disk disks.old disks.new }
    {
        let empty = Vec::new(*self.buffer.allocator());
        let mut framed = mem::replace(&mut self.buffer, empty);
        frame(&mut framed, bytes);
        let committed = self.commit_framed(disks, generation, &mut framed);
        self.buffer = framed;
        committed
    }

    fn commit_framed<D: Disk>(
        &mut self,
        disks: &mut Pair<D>,
        generation: u64,
        framed: &mut Vec<u8>,
    ) -> Result<(), Failed>
        requires settled { D.tells → Settled Fits D.seen D.may_leave self.old disks.old }
        requires next { IsNext D.Disk generation disks.old }
        requires room { HasRoom Allows size_after D.room self.old disks.old (length (body_in framed.old.items)) }
        requires framed { IsFramed framed.old }
        ensures saves { CommitsBytes kept_in Fits wants_image calls_of_slots lies_on_a IsRegular D.Disk generation
            (body_in framed.old.items) self.old self.new disks.old disks.new result }
        ensures room { vec_capacity framed.old ≤ vec_capacity framed.new }
        ensures tails { LeavesOldOrShut D.Disk disks.old disks.new }
    {
        // After a failure nothing is promised of the keeper.
        let shut = self.shut;
        self.generation = generation;
        self.shut = false;
        if self.on_a {
            self.on_a = false;
            save_slot(&mut disks.b, framed, shut, generation)
        } else {
            self.on_a = true;
            save_slot(&mut disks.a, framed, shut, generation)
        }
    }
}

// The keeper of the slot in force, and what it keeps.
fn opened(alloc: Global, choice: Choice) -> Result<(TwoSlot, Opened), Memory>
    ensures opened { IfOk result (λ found. kept_of found.1
        ≡ image_alone choice.entry.slot.generation choice.entry.slot.body.now) }
    ensures keeper { IfOk result (λ found. (a b : List ℕ)
        → StandsOn choice.entry.on_a choice.entry.slot.generation choice.entry.shut a b → Fits found.0 a b) }
{
    let generation = choice.slot.generation;
    let image = choice.slot.body.to_vec(alloc)?;
    Ok((
        TwoSlot {
            generation,
            on_a: choice.on_a,
            shut: choice.shut,
            buffer: Vec::new(alloc),
        },
        Opened {
            generation,
            image: Listed::of(image),
            records: Listed::of(Vec::new(alloc)),
        },
    ))
}
