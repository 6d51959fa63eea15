ghost use Rattle.std.specs.Prelude.{◌↔◌, ℕ, List, [], ◌∷◌, ◌++◌};
ghost use Rattle.ficus_model.specs.declared.event.Event.{Event};
ghost use Rattle.ficus_model.specs.Events.{IsOf, through};
ghost use Rattle.ficus_model.specs.Known.{Knows, HasSeen};
ghost use Rattle.ficus_laws.specs.Known.{IsKnownAfter};

/// Nobody knows anything of the empty history. One more event changes nothing for the other replicas. Its
/// own replica then knows the event too, and, where it takes what was served at an earlier position, what
/// the replica there knew through that position.
pub fn known_by_steps()
    ensures none { (replica position : ℕ) → Knows [] replica position → ⊥ }
    ensures one_more { (H : List Event) (event : Event) (replica position : ℕ)
        → Knows (H ++ event ∷ []) replica position ↔ IsKnownAfter H event replica position }
{}

/// What an event has seen is what its replica knew through it.
pub fn known_is_seen()
    ensures { (H : List Event) (at replica seen : ℕ) → IsOf H at replica
        → (HasSeen H at seen ↔ Knows (through at H) replica seen) }
{}
