ghost use Rattle.std.specs.Prelude.{◌≡◌, ◌≤◌, length, OnErr, OnOk};
ghost use Rattle.ficus_faults.specs.Faults.{Rose};
ghost use Rattle.ficus_disk.specs.MemDisk.{seen_in};

use ficus_disk::{Disk, MemDisk};
use ficus_faults::{Failed, Faults};
use ficus_ids::Memory;
use std::alloc::Global;

/// A disk in memory that stands in for a real one. It may be asked for any place, as one that doesn't tell what it
/// holds: a read past its end, and a write that begins behind it, is a fault.
#[derive(Drop)]
pub struct StandIn {
    disk: MemDisk,
    // How many bytes the disk has, which doesn't say so while it fails.
    size: u64,
    // Those of the disk, and those of calls that it can't be asked.
    faults: Faults,
    ghost sized: { size ≡ length (seen_in disk) },
}

impl StandIn {
    ghost use Rattle.std.specs.Prelude.{◌+◌, ◌<◌, ⊤, take, drop, IfOk, IsErr};
    ghost use Rattle.ficus_disk.specs.Calls.{BurnsAtSync, BurnsAtWrite, Counts, Keeps, Looks, Rearms, Reopens, Spares, Stays, Unarms, Writes};
    ghost use Rattle.ficus_disk.specs.Crash.{Only};
    ghost use Rattle.ficus_disk.specs.Fuse.{Arms, numbered};
    ghost use Rattle.ficus_here_or_away.specs.StandIn.{IsFresh, MayBeLeft, MightBeLeft, armings_of, faults_of, fuse_of, image_of, moment_of, room_of, seen_of};

    /// An empty one. Takes no memory.
    pub(crate) fn new(alloc: Global) -> StandIn
        ensures { IsFresh result }
    {
        StandIn {
            disk: MemDisk::new(alloc),
            size: 0,
            faults: Faults::new(),
        }
    }

    /// How many bytes it has.
    pub(crate) fn size(&mut self) -> Result<u64, Failed>
        ensures told { IfOk result (λ size. size ≡ length (seen_of self.old)) }
        ensures stays { Stays ⊤ seen_of MayBeLeft moment_of MightBeLeft room_of faults_of armings_of self.old self.new
            result }
        ensures by_fuse { Looks fuse_of image_of self.old self.new result }
    {
        counted(&mut self.faults, self.disk.size())
    }

    /// Reads the bytes from `at` on. Past the end it is a fault. After a fault `into` may hold anything.
    pub(crate) fn read(&mut self, at: u64, into: &mut [u8]) -> Result<(), Failed>
        ensures told { at + length into.old ≤ length (seen_of self.old)
            → OnOk result (into.new ≡ take (length into.old) (drop at (seen_of self.old))) }
        ensures stays { Stays ⊤ seen_of MayBeLeft moment_of MightBeLeft room_of faults_of armings_of self.old self.new
            result }
        ensures by_fuse { at + length into.old ≤ length (seen_of self.old)
            → Looks fuse_of image_of self.old self.new result }
        ensures past { length (seen_of self.old) < at + length into.old → IsErr result }
    {
        if at > self.size || into.len() as u64 > self.size - at {
            return Err(self.faults.raise());
        }
        counted(&mut self.faults, self.disk.read(at, into))
    }

    /// Afterwards writes that end within `upto` take no memory.
    pub(crate) fn reserve(&mut self, upto: u64) -> Result<(), Memory>
        ensures reserved { OnOk result (upto ≤ room_of self.new) }
        ensures keeps { Keeps ⊤ seen_of MayBeLeft moment_of MightBeLeft room_of self.old self.new }
        ensures steady { faults_of self.new ≡ faults_of self.old }
        ensures armings { armings_of self.new ≡ armings_of self.old }
        ensures by_fuse { Spares fuse_of image_of self.old self.new }
    {
        self.disk.reserve(upto)
    }

    /// Writes the bytes from `at` on, and grows where they end behind its end. A write that begins behind its end is a
    /// fault, and does nothing else.
    pub(crate) fn write(&mut self, at: u64, bytes: &[u8]) -> Result<(), Failed>
        requires { at + length bytes.now ≤ room_of self.old }
        ensures writes { Writes (at ≤ length (seen_of self.old)) seen_of MayBeLeft moment_of MightBeLeft room_of at
            bytes.now self.old self.new result }
        ensures counts { Counts faults_of armings_of self.old self.new result }
        ensures by_fuse { at ≤ length (seen_of self.old)
            → BurnsAtWrite fuse_of image_of at bytes.now self.old self.new result }
        ensures behind { length (seen_of self.old) < at → IsErr result }
        ensures nothing { length (seen_of self.old) < at → seen_of self.new ≡ seen_of self.old }
    {
        if at > self.size {
            return Err(self.faults.raise());
        }
        let answer = counted(&mut self.faults, self.disk.write(at, bytes));
        self.size = self.size.max(at + bytes.len() as u64);
        answer
    }

    /// After it a crash leaves what a read gives. One that fails has done nothing.
    pub(crate) fn sync(&mut self) -> Result<(), Failed>
        ensures durable { OnOk result (Only (seen_of self.new) (MayBeLeft self.new)) }
        ensures stays { Stays ⊤ seen_of MayBeLeft moment_of MightBeLeft room_of faults_of armings_of self.old self.new
            result }
        ensures by_fuse { BurnsAtSync fuse_of image_of self.old self.new result }
    {
        counted(&mut self.faults, self.disk.sync())
    }

    /// Arms its fuse.
    pub(crate) fn arm(&mut self, calls: u32, pick: u8)
        requires { pick < 4 }
        ensures arms { Arms (armings_of self.old) (armings_of self.new) }
        ensures keeps { Keeps ⊤ seen_of MayBeLeft moment_of MightBeLeft room_of self.old self.new }
        ensures steady { faults_of self.new ≡ faults_of self.old }
        ensures by_fuse { Rearms fuse_of image_of calls (numbered pick) self.old self.new }
    {
        self.disk.arm(calls, pick)
    }

    /// Opens it anew, as what its pick leaves.
    pub(crate) fn again(&mut self) -> Result<(), Failed>
        ensures reopens { Reopens ⊤ seen_of MayBeLeft moment_of MightBeLeft room_of self.old self.new result }
        ensures counts { Counts faults_of armings_of self.old self.new result }
        ensures by_fuse { Unarms seen_of fuse_of image_of self.old self.new result }
    {
        let answer = counted(&mut self.faults, self.disk.again());
        if let Ok(size) = self.disk.size() {
            self.size = size;
        }
        answer
    }
}

// The disk's answer, with one fault more where it is an error.
fn counted<T>(faults: &mut Faults, answer: Result<T, Failed>) -> Result<T, Failed>
    ensures same { result ≡ answer }
    ensures steady { OnOk result (faults.new ≡ faults.old) }
    ensures failed { OnErr result (Rose faults.old faults.new) }
    ensures risen { faults.old ≤ faults.new }
{
    if answer.is_err() {
        faults.raise();
    }
    answer
}
