ghost use Rattle.std.specs.Prelude.{◌≡◌, ℕ, List, Option};
ghost use Rattle.ficus_entry.specs.Entry.{IsRising};
ghost use Rattle.ficus_entry.specs.declared.entry.Entry.{Entry};
ghost use Rattle.ficus_merge_entries.specs.Merge.{MergesEntries};
ghost use Rattle.ficus_merge_entries.specs.Table.{MergesEntry};

/// The law that the merge table says exactly one thing of what stands at the taker and at the peer, and that
/// so two lists have exactly one merge. It does nothing when it runs.
pub fn one_merge()
    ensures entry { (r members : ℕ) (mine theirs one other : Option Entry) →
        MergesEntry r members mine theirs one → MergesEntry r members mine theirs other →
        one ≡ other }
    ensures list { (r members : ℕ) (mine theirs one other : List Entry) →
        IsRising one → IsRising other →
        MergesEntries r members mine theirs one → MergesEntries r members mine theirs other →
        one ≡ other }
{}
