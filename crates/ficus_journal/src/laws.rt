ghost use Rattle.std.specs.Prelude.{◌≡◌, ◌↔◌, nat_le, List, ℕ, Some, false};
ghost use Rattle.ficus_disk.specs.declared.pair.Pair.{Pair};
ghost use Rattle.ficus_keeper.specs.Kept.{Kept};
ghost use Rattle.ficus_slot.specs.Slot.{AreBytes};
ghost use Rattle.ficus_two_slots.specs.Committing.{LeavesOldOrShut};
ghost use Rattle.ficus_two_slots.specs.Slots.{IsRegular as AreTwoSlots, kept_in as kept_by_two_slots};
ghost use Rattle.ficus_journal.specs.Committing.{LeavesShut};
ghost use Rattle.ficus_journal.specs.Journal.{Fits, saves_image};
ghost use Rattle.ficus_journal.specs.declared.journal.Journal.{Journal};
ghost use Rattle.ficus_journal.specs.Logs.{HaveNoOpenGate, IsKept, IsRegular, kept_in, record_limit};

use ficus_disk::Disk;

/// The law that what a journal finds on two disks is exactly what they keep. It does nothing when it runs.
pub fn what_is_kept()
    ensures { (kept : Kept) (a b : List ℕ) → AreBytes a → AreBytes b → kept_in a b ≡ Some kept ↔ IsKept kept a b }
{}

/// The laws of an open gate behind the last record: none stands on a volume that two slots alone wrote, nor on one that
/// a journal alone wrote; and where none stands, a journal wants an image behind enough records alone. A commit leaves
/// none where none stood: a journal's by its clause `gates`, and one of two slots by `two_slots_leave_no_open_gate`,
/// also where the other keeper wrote before. They do nothing when they run.
pub fn no_open_gate()
    ensures two_slots { (a b : List ℕ) → AreTwoSlots a b → HaveNoOpenGate a b }
    ensures journal { (a b : List ℕ) → IsRegular a b → HaveNoOpenGate a b }
    ensures wants { (keeper : Journal) (a b : List ℕ) → HaveNoOpenGate a b → Fits keeper a b
        → saves_image keeper ≡ nat_le record_limit keeper.count }
{}

/// The law that a commit of two slots, as its clause `tails` tells it, leaves no open gate behind the last record where
/// none stood: nor where a journal has left records. It does nothing when it runs.
pub fn two_slots_leave_no_open_gate<D: Disk>()
    ensures { (old new : Pair D) → LeavesOldOrShut D.Disk old new → LeavesShut D.Disk old new }
{}

/// The laws of a volume that two slots wrote: a journal finds the same on it, an image with no record, and wants
/// a record next. They do nothing when they run.
pub fn left_by_two_slots()
    ensures kept { (a b : List ℕ) → AreTwoSlots a b → kept_in a b ≡ kept_by_two_slots a b }
    ensures wants { (keeper : Journal) (a b : List ℕ) → AreTwoSlots a b → Fits keeper a b
        → saves_image keeper ≡ false }
{}
