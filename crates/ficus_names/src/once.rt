ghost use Rattle.std.specs.Prelude.{◌≡◌, ◌↔◌, Contains, IsTrue};
ghost use Rattle.std.specs.List.Sorted.{IsStrictlySortedBy};
ghost use Rattle.std.specs.declared.cmp.Ordering.TheVariants.{Equal};

/// The items in order, each of them once. The order tells different items apart.
pub(crate) fn once_each<T: Ord + Drop>(mut items: Vec<T>) -> Vec<T>
    requires exact { (a b : T) → T.Ord.cmp a b ≡ Equal → a ≡ b }
    ensures same { (item : T) → Contains result.items item ↔ Contains items.items item }
    ensures rising { IsStrictlySortedBy T.Ord.cmp result.items }
{
    items.sort_unstable();
    items.dedup();
    items
}

/// Whether the two lists are one. The order tells different items apart.
pub(crate) fn are_same<T: Ord>(items: &[T], others: &[T]) -> bool
    requires exact { (a b : T) → T.Ord.cmp a b ≡ Equal → a ≡ b }
    ensures { IsTrue result ↔ (items.now ≡ others.now) }
{
    items == others
}
