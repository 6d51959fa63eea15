ghost use Rattle.ficus_runs.specs.Pieces.Laws.{GenerationKeepsKnown, GenerationKeepsSaved, GenerationDeterminesSaved};

/// While a replica isn't saved, it hears of nothing but its own events.
pub fn generation_determines_known()
    ensures { GenerationKeepsKnown }
{}

/// While a replica isn't saved, what would be saved of it stays: entries, marks, objects, versions, covers. So wherever
/// in a history its generation is the same, what is saved of it is the same.
pub fn generation_determines_saved()
    ensures kept { GenerationKeepsSaved }
    ensures same { GenerationDeterminesSaved }
{}
