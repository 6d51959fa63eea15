ghost use Rattle.ficus_file_laws.specs.Laws.{OneListOfVersions, ConflictsAreListed, WritesAdvance, JoinsAreCounted, VectorsCountMembers};

/// A file has one list of versions, which count members alone, and is in conflict exactly where two of them differ in
/// bytes.
pub fn lists_are_one()
    ensures one { OneListOfVersions }
    ensures members { VectorsCountMembers }
    ensures conflict { ConflictsAreListed }
{}

/// What a write makes of the versions that tables keep, and what a removal makes of the cover, is what the history
/// makes of them.
pub fn lists_follow_writes()
    ensures written { WritesAdvance }
    ensures joined { JoinsAreCounted }
{}
