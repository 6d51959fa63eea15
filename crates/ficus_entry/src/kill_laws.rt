ghost use Rattle.std.specs.Prelude.{◌≡◌, ℕ, IsTrue};
ghost use Rattle.ficus_ids.specs.Marks.{has};
ghost use Rattle.ficus_entry.specs.Kill.{IsOnly};

/// The law that marks of one replica alone are its own and nobody else's. It does nothing when it runs.
pub fn only_its_own()
    ensures own { (marks by : ℕ) → IsOnly marks by → IsTrue (has marks by) }
    ensures others { (marks by replica : ℕ) → IsOnly marks by → IsTrue (has marks replica) → replica ≡ by }
{}
