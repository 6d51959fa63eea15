ghost use Rattle.std.specs.Prelude.{◌≡◌, ◌+◌, ◌^◌, ◌<◌, ◌≤◌, Some, None, Bool, true, false, [], Option, List, ℕ, length, vec_capacity, IsErrOf, OnOk};
ghost use Rattle.ficus_keeper.specs.Calls.{AreAsBefore, CommitsBytes, CountsMaking, CountsOpening, Finds, HasRoom, Keeps, Makes, Spares, StaysUnarmed};
ghost use Rattle.ficus_keeper.specs.Framed.{IsFramed, body_in};
ghost use Rattle.ficus_keeper.specs.Fuses.{both_unarmed, fuses_of};
ghost use Rattle.ficus_keeper.specs.Kept.{Kept, Settled, found_in, generation_of};

use crate::{MakeFault, Opened, StoreFault, Wants};
use ficus_disk::{Disk, Pair};
use ficus_faults::Failed;
use ficus_ids::Memory;
use std::alloc::Global;

/// A rule by which a pair of disks keeps an image and the records behind it, so that a crash at any moment leaves what
/// was kept before a commit, or what is kept after it.
pub trait Keep {
    /// What the rule finds in the bytes of two disks.
    ghost kept: { List ℕ → List ℕ → Option Kept };

    /// The keeper stands for these bytes.
    ghost fits: { Self → List ℕ → List ℕ → Type 0 };

    /// The next commit saves an image.
    ghost wants_image: { Self → Bool };

    /// A commit of so many bytes may be made.
    ghost Allows: { Self → ℕ → Type 0 };

    /// A commit of so many bytes may be made, and the keeper's own buffer has room for it.
    ghost Takes: { Self → ℕ → Type 0 };

    /// How many bytes a disk has after a commit of so many, at most.
    ghost size_of: { Self → ℕ → ℕ };

    /// How many calls of `write` and `sync` save this generation.
    ghost calls: { ℕ → ℕ };

    /// Whether it is saved on the disk `a`.
    ghost is_on_a: { ℕ → Bool };

    /// The bytes are those of a volume that this keeper alone wrote.
    ghost Regular: { List ℕ → List ℕ → Type 0 };

    /// Saves an image with generation 0 on `a`, and leaves `b` as it is.
    fn make<D: Disk>(alloc: Global, disks: &mut Pair<D>, image: &[u8]) -> Result<(), MakeFault>
        requires empty_a { D.tells → D.seen disks.old.a ≡ [] }
        requires empty_b { D.tells → D.seen disks.old.b ≡ [] }
        ensures told { D.tells → Makes kept Regular D.seen D.may_leave D.moment D.left_since image.now disks.old
            disks.new result }
        ensures other { disks.new.b ≡ disks.old.b }
        ensures counts { CountsMaking D.faults D.armings disks.old disks.new result }

        // Memory is refused before anything is written.
        ensures refused { IsErrOf result MakeFault.Memory → AreAsBefore D.Disk disks.old disks.new }

        // Without an armed fuse nothing fails.
        ensures by_fuse { D.tells_fuse → fuses_of D.fuse disks.old ≡ both_unarmed
            → StaysUnarmed D.fuse MakeFault.Failed disks.new result };

    /// Reads what is kept. It begins with a sync of both disks. `NoImage` comes exactly where nothing is kept.
    fn open<D: Disk>(alloc: Global, disks: &mut Pair<D>) -> Result<(Self, Opened), StoreFault>
    where
        Self: Sized,
        ensures told { D.tells → Finds kept fits D.seen D.may_leave disks.old disks.new result }
        ensures keeps { Keeps D.tells D.tells_moments D.seen D.may_leave D.moment D.left_since disks.old disks.new }
        ensures counts { CountsOpening D.faults D.armings disks.old disks.new result }

        // Without an armed fuse nothing fails.
        ensures by_fuse { D.tells_fuse → fuses_of D.fuse disks.old ≡ both_unarmed
            → StaysUnarmed D.fuse StoreFault.Failed disks.new result };

    /// What the next commit saves.
    fn wants(&self) -> Wants
        ensures image { wants_image self.now ≡ true → result ≡ Wants.Image }
        ensures record_ { wants_image self.now ≡ false → result ≡ Wants.Record };

    /// Reserves what a commit of so many bytes takes, on both disks and in the keeper's own buffer.
    fn prepare<D: Disk>(&mut self, disks: &mut Pair<D>, length: u64) -> Result<(), Memory>
        ensures room { OnOk result (HasRoom Takes size_of D.room self.new disks.new length) }
        ensures settled { D.tells → Settled fits D.seen D.may_leave self.old disks.old
            → Settled fits D.seen D.may_leave self.new disks.new }
        ensures wants { wants_image self.new ≡ wants_image self.old }
        ensures keeps { Keeps D.tells D.tells_moments D.seen D.may_leave D.moment D.left_since disks.old disks.new }
        ensures spares { Spares D.faults D.armings D.tells_fuse D.image D.fuse disks.old disks.new };

    /// Reserves what a commit of so many framed bytes takes, on both disks. No frame has room for 2^63 bytes.
    fn reserve<D: Disk>(&self, disks: &mut Pair<D>, length: u64) -> Result<(), Memory>
        requires small { length < 2 ^ 63 }
        ensures room { OnOk result (HasRoom Allows size_of D.room self.now disks.new length) }
        ensures settled { D.tells → Settled fits D.seen D.may_leave self.now disks.old
            → Settled fits D.seen D.may_leave self.now disks.new }
        ensures keeps { Keeps D.tells D.tells_moments D.seen D.may_leave D.moment D.left_since disks.old disks.new }
        ensures spares { Spares D.faults D.armings D.tells_fuse D.image D.fuse disks.old disks.new };

    /// Saves the bytes as the next generation: an image or a record, as the keeper wants. Takes no memory. After one
    /// that fails nothing is promised of the keeper.
    fn commit<D: Disk>(
        &mut self,
        disks: &mut Pair<D>,
        generation: u64,
        bytes: &[u8],
    ) -> Result<(), Failed>
        requires settled { D.tells → Settled fits D.seen D.may_leave self.old disks.old }
        requires next { D.tells → (before : Kept) → found_in kept D.seen disks.old ≡ Some before
            → generation ≡ generation_of before + 1 }
        requires room { HasRoom Takes size_of D.room self.old disks.old (length bytes.now) }
        ensures { CommitsBytes kept fits wants_image calls is_on_a Regular D.Disk generation bytes.now self.old
            self.new disks.old disks.new result };

    /// Saves the bytes in a frame as the next generation, from where they stand, between a head and a tail. Takes no
    /// memory. The frame is of no use afterwards, and keeps its room. After a failure the keeper promises nothing.
    fn commit_framed<D: Disk>(
        &mut self,
        disks: &mut Pair<D>,
        generation: u64,
        framed: &mut Vec<u8>,
    ) -> Result<(), Failed>
        requires settled { D.tells → Settled fits D.seen D.may_leave self.old disks.old }
        requires next { D.tells → (before : Kept) → found_in kept D.seen disks.old ≡ Some before
            → generation ≡ generation_of before + 1 }
        requires room { HasRoom Allows size_of D.room self.old disks.old (length (body_in framed.old.items)) }
        requires framed { IsFramed framed.old }
        ensures saves { CommitsBytes kept fits wants_image calls is_on_a Regular D.Disk generation
            (body_in framed.old.items) self.old self.new disks.old disks.new result }
        ensures room { vec_capacity framed.old ≤ vec_capacity framed.new };

    /// Nothing is kept on empty disks.
    ghost none_at_first: { kept [] [] ≡ None };
}
