ghost use Rattle.ficus_held_laws.specs.EntryLaws.{HeldIsNotDropped, OneKeptOfEach, NoEntriesAtStart, ListsAreWhole, UpdateStepsEntries, UpdateStepsList, CollectLeavesEntries, CollectLeavesList, OthersKeepEntries, OthersKeepList, AcceptMergesEntries};

/// No entry is kept that is dropped, and of each identifier at most one entry is kept, in one state. A list of
/// the entries that a replica keeps has exactly those; at the start it is empty.
pub fn kept_entries_stand()
    ensures undropped { HeldIsNotDropped }
    ensures one { OneKeptOfEach }
    ensures whole { ListsAreWhole }
    ensures start { NoEntriesAtStart }
{}

/// After an update its replica keeps the entries that it kept, and alive the one that the update enters. Of
/// these the ones that the update removes are removed then, with the replica alone in the first set of marks
/// and nobody in the second; the others are as before. There are two members or more.
pub fn update_steps_entries()
    ensures each { UpdateStepsEntries }
    ensures list { UpdateStepsList }
{}

/// After a Collect its replica keeps, as they were, the entries that it kept, but for the removed ones whose
/// second set of marks has every member.
pub fn collect_drops_full_entries()
    ensures each { CollectLeavesEntries }
    ensures list { CollectLeavesList }
{}

/// After an event of another replica, and after one that is no update, takes nothing and doesn't collect, a
/// replica keeps the entries that it kept.
pub fn others_keep_entries()
    ensures each { OthersKeepEntries }
    ensures list { OthersKeepList }
{}

/// Where an answer is taken, the merge of the list of entries that the replica keeps with that of the server, as
/// it stood when it served, is the list of those that the replica then keeps.
pub fn accept_merges_entries()
    ensures { AcceptMergesEntries }
{}
