ghost use Rattle.std.specs.Prelude.{ℕ, ◌≤◌, ◌<◌, ◌*◌, ◌^◌};
ghost use Rattle.ficus_persistent.specs.Shape.{IsLow};

/// The law that a tree that is low stands at most twice the binary logarithm of its count and two high, where it has
/// items. It does nothing when it runs.
pub fn low_is_a_logarithm()
    ensures { (count height : ℕ) → IsLow count height → 0 < count → 2 ^ height ≤ (2 * count) * (2 * count) }
{}
