ghost use Rattle.ficus_held_file_laws.specs.Laws.{AnswersFit, AcceptMergesFiles};

/// What was served can be merged with what any replica holds later: it is never refused for the sake of its files.
pub fn answers_fit()
    ensures { AnswersFit }
{}

/// And the merge of both is what the replica then holds.
pub fn accept_merges_files()
    ensures { AcceptMergesFiles }
{}
