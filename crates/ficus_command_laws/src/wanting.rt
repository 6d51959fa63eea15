ghost use Rattle.ficus_command_laws.specs.Laws.{AdoptsWantMemoryLate, MovesWantMemoryLate, OthersWantMemoryLate, RemovesWantMemoryLate, ResolvesWantMemoryLate};

/// A change wants memory exactly where its rule refuses nothing; but `resolve` of a file in conflict, `rm` of a
/// directory with something in it, and `mv` and `adopt` of a directory may want it before that is known.
pub fn memory_is_wanted_late()
    ensures others { OthersWantMemoryLate }
    ensures resolve { ResolvesWantMemoryLate }
    ensures remove { RemovesWantMemoryLate }
    ensures moved { MovesWantMemoryLate }
    ensures adopt { AdoptsWantMemoryLate }
{}
