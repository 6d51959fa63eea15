ghost use Rattle.std.specs.Prelude.{◌≡◌, ◌<◌, ◌≤◌, List, [], ◌++◌, ℕ, length, take, Ok, IfOk, OnOk, OnErr};
ghost use Rattle.ficus_faults.specs.Faults.{Rose};

use ficus_faults::Failed;

/// Where bytes come from.
pub trait Source {
    /// The unit type where the source tells what it has left, and the empty type where it doesn't, as where an `impl`
    /// says nothing of it.
    ghost tells: { Type 0 } = { ⊥ };

    /// The bytes that are left, in the order in which they come. A claim only where the source tells it.
    ghost left: { Self → List ℕ } = { λ _. [] };

    /// How often the source has failed. The count stands still at 2^64 - 1.
    ghost faults: { Self → ℕ };

    /// Takes bytes into the front of `into`, and answers how many. 0 for a buffer that isn't empty is the end.
    fn take(&mut self, into: &mut [u8]) -> Result<usize, Failed>
        ensures within { IfOk result (λ count. count ≤ length into.new) }
        ensures taken { tells → IfOk result (λ count. left self.old ≡ take count into.new ++ left self.new) }
        ensures end { tells → 0 < length into.new → result ≡ Ok 0 → left self.old ≡ [] }
        ensures kept { tells → OnErr result (left self.new ≡ left self.old) }
        ensures failed { OnErr result (Rose (faults self.old) (faults self.new)) }
        ensures steady { OnOk result (faults self.new ≡ faults self.old) }
        ensures counted { faults self.old ≤ faults self.new };
}
