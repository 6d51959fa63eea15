ghost use Rattle.ficus_held_file_laws.specs.Laws.{MakeStepsFiles, WriteStepsFiles, CoverStepsFiles, NameStepsFiles};

/// What each update makes of files is what it makes of what is held: a Make adds one, a Write, a Settle and a Resolve
/// write one, a Remove and a Discard cover one, and a Link, a Move and an Adopt leave them all.
pub fn files_follow_updates()
    ensures made { MakeStepsFiles }
    ensures written { WriteStepsFiles }
    ensures covered { CoverStepsFiles }
    ensures named { NameStepsFiles }
{}
