ghost use Rattle.std.specs.Prelude.{◌≡◌, ◌<◌, ◌^◌, ◌∷◌, ℕ, Option, Err, IfOk, IfSome, IfNone, OnErr};
ghost use Rattle.std.specs.Int.{w64, to_be_bytes};
ghost use Rattle.ficus_note.specs.Noted.{FitsNote, note_bytes};
ghost use Rattle.ficus_note.specs.declared.asked.Asked.{Asked as AskedValue};

use crate::{Asked, NoteFault};
use ficus_formats::Reader;

/// The note that the bytes spell, from the first to the last. `Damaged`, and no other fault, comes exactly where they
/// spell none.
pub(crate) fn read_note(bytes: &[u8]) -> Result<Option<Asked>, NoteFault>
    ensures fits { IfOk result (λ noted. FitsNote noted) }
    ensures spelled { IfOk result (λ noted. bytes.now ≡ note_bytes noted) }
    ensures damaged { OnErr result (result ≡ Err NoteFault.Damaged) }
    ensures none { OnErr result ((noted : Option AskedValue) → FitsNote noted → bytes.now ≡ note_bytes noted → ⊥) }
{
    match read_fields(bytes) {
        Some(Fields { to: 0, number: 0 }) => Ok(None),
        Some(Fields { to, number }) if 1 <= to && to <= 8 => Ok(Some(Asked { to, number })),
        _ => Err(NoteFault::Damaged),
    }
}

// A byte and a number of eight bytes.
#[derive(Clone, Copy)]
struct Fields {
    to: u8,
    number: u64,
}

// The fields that the bytes spell, from the first to the last. `None` comes exactly where they spell none.
fn read_fields(bytes: &[u8]) -> Option<Fields>
    ensures found { IfSome result (λ fields. bytes.now ≡ fields.to ∷ to_be_bytes w64 fields.number) }
    ensures none { IfNone result ((to number : ℕ) → number < 2 ^ 64 → bytes.now ≡ to ∷ to_be_bytes w64 number → ⊥) }
{
    let mut rest = Reader::new(bytes);
    let to = rest.byte().ok()?;
    let number = rest.number64().ok()?;
    if rest.is_empty() {
        Some(Fields { to, number })
    } else {
        None
    }
}
