ghost use Rattle.ficus_merge_laws.specs.Laws.{MergeGivesStates};

/// Where an answer is taken, the merge table makes, of the state of an entry at the replica and of its state
/// at the server when it served, the state that the entry then has at the replica: absent, alive, or removed
/// with exactly the two sets of marks that the history gives.
pub fn merge_gives_states()
    ensures { MergeGivesStates }
{}
