ghost use Rattle.std.specs.Prelude.{◌≡◌, ◌<◌, ◌≤◌, ◌⊎◌, List, [], ◌++◌, ℕ, length, take, Ok, IfOk, OnErr};
ghost use Rattle.ficus_faults.specs.Faults.{Rose};

use ficus_faults::Failed;

/// Where bytes go.
pub trait Sink {
    /// The unit type where the sink tells what was put, and the empty type where it doesn't, as where an `impl` says
    /// nothing of it.
    ghost tells: { Type 0 } = { ⊥ };

    /// The bytes that were put, in order. A claim only where the sink tells it.
    ghost written: { Self → List ℕ } = { λ _. [] };

    /// How often the sink has failed. The count stands still at 2^64 - 1.
    ghost faults: { Self → ℕ };

    /// Puts a front of the bytes, and answers how many. 0 of a piece that isn't empty is a fault too.
    fn put(&mut self, bytes: &[u8]) -> Result<usize, Failed>
        ensures within { IfOk result (λ count. count ≤ length bytes.now) }
        ensures written { tells → IfOk result (λ count. written self.new ≡ written self.old ++ take count bytes.now) }
        ensures kept { tells → OnErr result (written self.new ≡ written self.old) }
        ensures failed { OnErr result (Rose (faults self.old) (faults self.new)) }
        ensures none { 0 < length bytes.now → result ≡ Ok 0 → Rose (faults self.old) (faults self.new) }
        ensures steady { IfOk result (λ count. (0 < count) ⊎ (length bytes.now ≡ 0)
            → faults self.new ≡ faults self.old) }
        ensures counted { faults self.old ≤ faults self.new };
}
