ghost use Rattle.std.specs.Prelude.{◌≡◌, ◌↔◌, List, Contains};
ghost use Rattle.ficus_entry.specs.Entry.{IsRising};
ghost use Rattle.ficus_entry.specs.declared.entry.Entry.{Entry};

/// The law that two rising lists with the same entries are the same list. It does nothing when it runs.
pub fn same_entries()
    ensures { (a b : List Entry) → IsRising a → IsRising b →
        ((entry : Entry) → Contains a entry ↔ Contains b entry) → a ≡ b }
{}

/// The law that in a rising list two entries with one identifier are one. It does nothing when it runs.
pub fn one_entry()
    ensures { (entries : List Entry) (a b : Entry) → IsRising entries →
        Contains entries a → Contains entries b → a.id ≡ b.id → a ≡ b }
{}
