ghost use Rattle.std.specs.Prelude.{[]};
ghost use Rattle.ficus_model.specs.Lawful.{Volume, IsLawful};
ghost use Rattle.ficus_laws.specs.Laws.{LawfulBySteps, NumbersNameOne};

/// The empty history is lawful. One more event leaves a history lawful exactly where it may come.
pub fn lawful_by_steps()
    ensures none { (volume : Volume) → IsLawful volume [] }
    ensures one_more { LawfulBySteps }
{}

/// A number names one update.
pub fn numbers_name_one()
    ensures { NumbersNameOne }
{}
