ghost use Rattle.std.specs.Prelude.{◌≡◌, ℕ};
ghost use Rattle.ficus_vectors.specs.Vector.{Counts, count_of};

/// The law that vectors with the same counts are one. It does nothing when it runs.
pub fn same_vector()
    ensures { (v w : Counts) → ((replica : ℕ) → count_of v replica ≡ count_of w replica) → v ≡ w }
{}
