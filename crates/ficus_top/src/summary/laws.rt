ghost use Rattle.std.specs.Prelude.{◌≡◌, ℕ, List};
ghost use Rattle.ficus_top.specs.Summary.Summary.{Summarizes};

/// The law that a seed, so many steps and so many members have one summary. It does nothing when it runs.
pub fn one_summary()
    ensures { (members seed steps : ℕ) (text other : List ℕ) → Summarizes members seed steps text
        → Summarizes members seed steps other → text ≡ other }
{}
