ghost use Rattle.std.specs.Prelude.{◌≡◌, ◌++◌, length, IfOk, OnErr, OnOk, Bool, List, ℕ};
ghost use Rattle.ficus_formats.specs.Format.{Keeps};

use ficus_ids::Memory;

/// What a persistent list holds.
pub trait Item: Drop {
    /// A copy of the item.
    fn copied(&self) -> Result<Self, Memory>
        ensures { IfOk result (λ item. item ≡ self.now) };
}

/// An item with the bytes that stand for it where its list is spelled. An item that no list is asked to spell has none.
pub trait Spelled: Item {
    ghost spell: { Self → List ℕ };

    /// Appends its bytes.
    fn put(&self, out: &mut Vec<u8>) -> Result<(), Memory>
        ensures put { OnOk result (out.new.items ≡ out.old.items ++ spell self.now) }
        ensures kept { OnErr result (Keeps out.old.items out.new.items) };

    /// How many bytes these are.
    fn spelled_len(&self) -> usize
        ensures { result ≡ length (spell self.now) };
}

/// A cut through a list in order: whether an item lies before it.
pub trait Cut<T> {
    ghost is_before: { Self → T → Bool };

    fn is_before(&self, item: &T) -> bool
        ensures { result ≡ is_before self.now item.now };
}
