ghost use Rattle.std.specs.Prelude.{◌≡◌, ◌^◌, ◌<◌, ◌≤◌, length, vec_capacity, MatchOption};

use crate::opening::opened;
use ficus_disk::{Disk, Pair};
use ficus_faults::Failed;
use ficus_ids::Memory;
use ficus_keeper::{Keep, MakeFault, Opened, StoreFault, Wants, frame};
use ficus_slot::{reserve_range, save_slot};
use ficus_two_slots::{choose, read_both};
use std::alloc::Global;
use std::mem;

/// How many records stand behind an image at most.
const RECORD_LIMIT: u64 = 64;

/// A keeper of records behind an image: it wants a record until 64 of them stand behind the image, and then a new
/// image, which it saves on the other disk.
#[derive(Drop)]
pub struct Journal {
    // The slot in force, and on which disk it lies.
    pub(crate) generation: u64,
    pub(crate) on_a: bool,
    // Whether the gate of the other disk is closed.
    pub(crate) shut: bool,
    // The place of the gate behind the last record.
    pub(crate) end: u64,
    // How many records there are.
    pub(crate) count: u64,
    // Whether that gate is open, so that no record may be written behind it.
    pub(crate) stuck: bool,
    // Bytes that are committed without a frame are framed here.
    pub(crate) buffer: Vec<u8>,
}

impl Journal {
    ghost use Rattle.ficus_journal.specs.Journal.{IsShort, saves_image, size_after};

    // Whether an image is saved next.
    pub(crate) fn saves_image(&self) -> bool
        ensures { result ≡ saves_image self.now }
    {
        self.stuck || self.count >= RECORD_LIMIT
    }

    // How many bytes a disk has after a commit of so many, at most. `None` comes exactly where a record is too long for
    // its spelling, or would stand too far behind.
    fn upto(&self, length: u64) -> Option<u64>
        requires { length < 2 ^ 63 }
        ensures { MatchOption result (IsShort self.now length → ⊥)
            (λ upto. IsShort self.now length × (upto ≡ size_after self.now length)) }
    {
        if self.saves_image() {
            Some(length + 18)
        } else if length < 1 << 32 && self.end < 1 << 62 {
            Some(self.end + length + 14)
        } else {
            None
        }
    }
}

impl Keep for Journal {
    ghost use Rattle.std.specs.Prelude.{length, refl, vec_capacity};
    ghost use Rattle.ficus_keeper.specs.Calls.{CommitsBytes, HasRoom};
    ghost use Rattle.ficus_keeper.specs.Framed.{IsFramed, body_in};
    ghost use Rattle.ficus_keeper.specs.Kept.{Settled};
    ghost use Rattle.ficus_journal.specs.Committing.{IsNext, LeavesShut};
    ghost use Rattle.ficus_journal.specs.Journal.{Fits, IsShort, Takes, saves_image, size_after};
    ghost use Rattle.ficus_journal.specs.Logs.{IsRegular, calls_of_journal, kept_in, lies_on_a};

    ghost kept = { kept_in };

    ghost fits = { Fits };

    ghost wants_image = { saves_image };

    ghost Allows = { IsShort };

    ghost Takes = { Takes };

    ghost size_of = { size_after };

    ghost calls = { calls_of_journal };

    ghost is_on_a = { lies_on_a };

    ghost Regular = { IsRegular };

    ghost none_at_first = { refl };

    fn make<D: Disk>(alloc: Global, disks: &mut Pair<D>, image: &[u8]) -> Result<(), MakeFault> {
        let mut buffer = Vec::new(alloc);
        reserve_range(&mut buffer, image.len() as u64)?;
        disks.a.reserve(image.len() as u64 + 18)?;
        frame(&mut buffer, image);
        save_slot(&mut disks.a, &mut buffer, false, 0)?;
        Ok(())
    }

    fn open<D: Disk>(alloc: Global, disks: &mut Pair<D>) -> Result<(Journal, Opened), StoreFault> {
        let (a, b) = read_both(alloc, disks)?;
        match choose(&a, &b) {
            Some(choice) => Ok(opened(alloc, choice, &a, &b)?),
            None => Err(StoreFault::NoImage),
        }
    }

    fn wants(&self) -> Wants {
        if self.saves_image() {
            Wants::Image
        } else {
            Wants::Record
        }
    }

    fn prepare<D: Disk>(&mut self, disks: &mut Pair<D>, length: u64) -> Result<(), Memory> {
        reserve_range(&mut self.buffer, length)?;
        self.reserve(disks, length)
    }

    fn reserve<D: Disk>(&self, disks: &mut Pair<D>, length: u64) -> Result<(), Memory> {
        let upto = self.upto(length).ok_or(Memory)?;
        disks.a.reserve(upto)?;
        disks.b.reserve(upto)
    }

    fn commit<D: Disk>(
        &mut self,
        disks: &mut Pair<D>,
        generation: u64,
        bytes: &[u8],
    ) -> Result<(), Failed>
        requires settled { D.tells → Settled Fits D.seen D.may_leave self.old disks.old }
        requires next { IsNext D.Disk generation disks.old }
        requires room { HasRoom Takes size_after D.room self.old disks.old (length bytes.now) }
        ensures saves { CommitsBytes kept_in Fits saves_image calls_of_journal lies_on_a IsRegular D.Disk generation
            bytes.now self.old self.new disks.old disks.new result }
        ensures gates { LeavesShut D.Disk disks.old disks.new }
    {
        // The buffer is given up: an image's room would stand unused behind the records until the next one.
        let empty = Vec::new(*self.buffer.allocator());
        let mut framed = mem::replace(&mut self.buffer, empty);
        frame(&mut framed, bytes);
        self.commit_framed(disks, generation, &mut framed)
    }

    fn commit_framed<D: Disk>(
        &mut self,
        disks: &mut Pair<D>,
        generation: u64,
        framed: &mut Vec<u8>,
    ) -> Result<(), Failed>
        requires settled { D.tells → Settled Fits D.seen D.may_leave self.old disks.old }
        requires next { IsNext D.Disk generation disks.old }
        requires room { HasRoom IsShort size_after D.room self.old disks.old (length (body_in framed.old.items)) }
        requires framed { IsFramed framed.old }
        ensures saves { CommitsBytes kept_in Fits saves_image calls_of_journal lies_on_a IsRegular D.Disk generation
            (body_in framed.old.items) self.old self.new disks.old disks.new result }
        ensures room { vec_capacity framed.old ≤ vec_capacity framed.new }
        ensures gates { LeavesShut D.Disk disks.old disks.new }
    {
        if self.saves_image() {
            self.commit_image(disks, generation, framed)
        } else {
            self.commit_record(disks, generation, framed)
        }
    }
}
