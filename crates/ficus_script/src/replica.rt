ghost use Rattle.std.specs.Prelude.{◌≡◌, ◌↔◌, ℕ, IsTrue, IfSome, IfNone};
ghost use Rattle.std.specs.Fmt.{decimal};
ghost use Rattle.ficus_script.specs.Arguments.{IsReplicaNumber};

use ficus_ids::read_number;

/// The number of a replica that the word spells, or `None` exactly where it spells none.
pub(crate) fn read_replica(word: &[u8]) -> Option<u8>
    ensures number { IfSome result IsReplicaNumber }
    ensures found { IfSome result (λ replica. word.now ≡ decimal replica) }
    ensures none { IfNone result ((replica : ℕ) → IsReplicaNumber replica → word.now ≡ decimal replica → ⊥) }
{
    match read_number(word)? {
        replica @ 1..=255 => Some(replica as u8),
        _ => None,
    }
}

/// Whether a script may give the number as that of a replica.
pub(crate) fn is_replica(number: u32) -> bool
    ensures { IsTrue result ↔ IsReplicaNumber number }
{
    1 <= number && number <= 255
}
