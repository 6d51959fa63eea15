ghost use Rattle.std.specs.Prelude.{◌≡◌, ◌↔◌, ℕ, List, Some};
ghost use Rattle.ficus_slot.specs.Slot.{AreBytes, HasSlot, IsSlot, SlotContent, slot_in};

/// The law that bytes are one slot at most, with one tail, and that what is read of bytes is exactly the slot that they
/// are. It does nothing when it runs.
pub fn one_slot()
    ensures one { (one other : SlotContent) (tail end : ℕ) (bytes : List ℕ) → IsSlot one tail bytes
        → IsSlot other end bytes → (one ≡ other) × (tail ≡ end) }
    ensures read { (slot : SlotContent) (bytes : List ℕ) → AreBytes bytes
        → slot_in bytes ≡ Some slot ↔ HasSlot slot bytes }
{}
