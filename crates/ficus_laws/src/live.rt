ghost use Rattle.std.specs.Prelude.{ℕ, List};
ghost use Rattle.ficus_model.specs.declared.event.Event.{Event};
ghost use Rattle.ficus_model.specs.Known.{Knows};
ghost use Rattle.ficus_model.specs.View.{ViewSame};
ghost use Rattle.ficus_laws.specs.Laws.{ShowSame, KeepsShown, MakeEnters, MakeMakes, KnowSameUpdates, NoReturn, IdsNameOneEntry, EntriesHavePlaces, ObjectsAreMembers};

/// What a replica is shown stays the same after an event of another replica, and after an event of its own
/// that is no update and takes nothing.
pub fn others_change_nothing()
    ensures { KeepsShown }
{}

/// After a Make of a replica what was alive there is alive, and the new entry is too, and nothing else.
pub fn make_enters_one()
    ensures live { MakeEnters }
    ensures made { MakeMakes }
{}

/// Replicas that know the same updates are shown the same, and have the same view.
pub fn same_updates_show_same()
    ensures shown { (H : List Event) (replica other : ℕ) → KnowSameUpdates H replica other
        → ShowSame H (Knows H replica) H (Knows H other) }
    ensures view { (H : List Event) (replica other : ℕ) → KnowSameUpdates H replica other
        → ViewSame H (Knows H replica) (Knows H other) }
{}

/// An identifier names one entry. What is alive lies in a directory and names an object. Objects are made by
/// members, so the root and the attic are none.
pub fn entries_are_sound()
    ensures one { IdsNameOneEntry }
    ensures places { EntriesHavePlaces }
    ensures makers { ObjectsAreMembers }
{}

/// An entry that a replica knows to be removed is never alive for it again.
pub fn removed_never_returns()
    ensures { NoReturn }
{}
