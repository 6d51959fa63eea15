ghost use Rattle.std.specs.Prelude.{◌≡◌, IfSome, IfNone};
ghost use Rattle.ficus_script.specs.Order.{order_word};
ghost use Rattle.ficus_script.specs.declared.order.Order.{Order as OrderValue};

/// In which order the members pull in a sweep.
#[derive(Clone, Copy, PartialEq, Eq)]
pub enum Order {
    /// Three rounds, in each of which replica 1 pulls from all others, and then each of them from it.
    Star,
    /// Four rounds, in each of which each replica pulls from the one before it, and then replica 1 from the last.
    Ring,
}

/// The order that the word spells, or `None` exactly where it spells none.
pub(crate) fn read_order(word: &[u8]) -> Option<Order>
    ensures found { IfSome result (λ order. word.now ≡ order_word order) }
    ensures none { IfNone result ((order : OrderValue) → word.now ≡ order_word order → ⊥) }
{
    match word {
        b"star" => Some(Order::Star),
        b"ring" => Some(Order::Ring),
        _ => None,
    }
}
