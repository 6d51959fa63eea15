ghost use Rattle.std.specs.Prelude.{◌≡◌, IfSome, IfNone};
ghost use Rattle.ficus_ids.specs.declared.id.Id.{Id};
ghost use Rattle.ficus_ids.specs.Id.{id_text};
ghost use Rattle.ficus_path.specs.Path.{IsIssued};

use crate::cut::cut_before;
use ficus_ids::{Id, read_number};

/// The identifier `r.k` that the text spells, with `r` from 1 to 8 and `k` from 1. `None` comes exactly where it
/// spells none.
pub fn read_id(text: &[u8]) -> Option<Id>
    ensures issued { IfSome result IsIssued }
    ensures found { IfSome result (λ id. text.now ≡ id_text id) }
    ensures none { IfNone result ((id : Id) → IsIssued id → text.now ≡ id_text id → ⊥) }
{
    let (replica, rest) = cut_before(text, b'.');
    let (_, number) = rest.split_first()?;
    issued(read_number(replica)?, read_number(number)?)
}

fn issued(replica: u32, number: u32) -> Option<Id>
    ensures issued { IfSome result IsIssued }
    ensures numbers { IfSome result (λ id. (id.replica ≡ replica) × (id.number ≡ number)) }
    ensures none { IfNone result ((id : Id) → IsIssued id → id.replica ≡ replica → id.number ≡ number → ⊥) }
{
    if (1..=8).contains(&replica) && number >= 1 {
        Some(Id {
            replica: replica as u8,
            number,
        })
    } else {
        None
    }
}
