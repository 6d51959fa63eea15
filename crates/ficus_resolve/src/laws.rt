ghost use Rattle.std.specs.Prelude.{◌≡◌, ◌↔◌, ℕ, List, Option, Contains};
ghost use Rattle.ficus_ids.specs.declared.kind.Kind.{Kind as KindValue};
ghost use Rattle.ficus_resolve.specs.Resolver.{IsResolution};

/// The law that a resolver has one outcome, and the same one for contents that are the same set: neither their order
/// nor how often one comes matters. It does nothing when it runs.
pub fn one_resolution()
    ensures { (kind : KindValue) (contents others : List (List ℕ)) (outcome other : Option (List ℕ)) →
        ((content : List ℕ) → Contains contents content ↔ Contains others content) →
        IsResolution kind contents outcome → IsResolution kind others other → outcome ≡ other }
{}
