ghost use Rattle.ficus_standing_laws.specs.Laws.{EntriesGivenUp, ObjectsGivenUp, SecondCollectionGivesNothing};

/// A collection gives up exactly the entries of which its replica knows of every member that it knows that all know of
/// the removal, and the objects that are no orphans and that no entry leads to or lies in which it holds then.
pub fn collections_give_up_exactly()
    ensures entries { EntriesGivenUp }
    ensures objects { ObjectsGivenUp }
{}

/// A collection straight behind one of the same member gives up no entry and no object.
pub fn second_collections_give_nothing()
    ensures { SecondCollectionGivesNothing }
{}
