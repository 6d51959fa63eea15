ghost use Rattle.std.specs.Prelude.{◌≡◌, ◌<◌, ℕ, IfSome, IfNone};
ghost use Rattle.std.specs.Fmt.{decimal};

use ficus_ids::read_number;

/// The pick that the word spells, or `None` exactly where it spells none.
pub(crate) fn read_pick(word: &[u8]) -> Option<u8>
    ensures number { IfSome result (λ pick. pick < 4) }
    ensures found { IfSome result (λ pick. word.now ≡ decimal pick) }
    ensures none { IfNone result ((pick : ℕ) → pick < 4 → word.now ≡ decimal pick → ⊥) }
{
    match read_number(word)? {
        pick @ 0..=3 => Some(pick as u8),
        _ => None,
    }
}
