ghost use Rattle.std.specs.Prelude.{◌≡◌, ◌<◌, ℕ, All, IfSome, IfNone};
ghost use Rattle.std.specs.Fmt.{decimal};
ghost use Rattle.ficus_ids.specs.Members.{IsMember};
ghost use Rattle.ficus_top.specs.Graft.Crossing.{IsFirstCrossing, IsPlain, LeadsTo};

use ficus_ids::read_number;
use ficus_path::Part;

/// A part that leads to a volume, by its place among others.
#[derive(Clone, Copy)]
pub(crate) struct Crossing {
    pub(crate) place: usize,
    pub(crate) volume: u8,
}

/// The first of the parts that leads to one of so many volumes.
pub(crate) fn first_crossing(parts: &[Part], count: u8) -> Option<Crossing>
    ensures found { IfSome result (λ it. IsFirstCrossing count parts.now it.place it.volume) }
    ensures none { IfNone result (All (IsPlain count) parts.now) }
{
    for (place, part) in parts.iter().enumerate() {
        if let Some(volume) = led_to(part, count) {
            return Some(Crossing { place, volume });
        }
    }
    None
}

// The volume to which the part leads.
fn led_to(part: &Part, count: u8) -> Option<u8>
    ensures found { IfSome result (LeadsTo count part.now) }
    ensures none { IfNone result (IsPlain count part.now) }
{
    match part.name.bytes() {
        [b'%', digits @ ..] => volume_in(digits, count),
        _ => None,
    }
}

// The number of one of so many volumes that the digits spell.
fn volume_in(digits: &[u8], count: u8) -> Option<u8>
    ensures found { IfSome result (λ volume. IsMember count volume × (digits.now ≡ decimal volume)) }
    ensures none { IfNone result ((volume : ℕ) → IsMember count volume → digits.now ≡ decimal volume → ⊥) }
{
    let number = read_number(digits)?;
    if 1 <= number && number <= u32::from(count) {
        Some(number as u8)
    } else {
        None
    }
}
