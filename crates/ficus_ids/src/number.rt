ghost use Rattle.std.specs.Prelude.{◌≡◌, ◌≢◌, ◌↔◌, ◌<◌, ◌^◌, ℕ, length, slice_index, IsTrue, IfSome, IfNone};
ghost use Rattle.std.specs.Fmt.{decimal};

/// The number that the bytes spell in decimal, without a sign and without leading zeros. `None` comes exactly
/// where they spell no number of 32 bits.
pub fn read_number(bytes: &[u8]) -> Option<u32>
    ensures found { IfSome result (λ number. bytes.now ≡ decimal number) }
    ensures none { IfNone result ((number : ℕ) → number < 2 ^ 32 → bytes.now ≡ decimal number → ⊥) }
{
    if !begins_plainly(bytes) {
        return None;
    }
    match str::from_utf8(bytes) {
        Ok(text) => text.parse().ok(),
        Err(_) => None,
    }
}

// The parser of std takes a `+` and leading zeros too.
fn begins_plainly(bytes: &[u8]) -> bool
    ensures { IsTrue result
        ↔ ((slice_index bytes.now 0 ≢ 43) × (slice_index bytes.now 0 ≡ 48 → length bytes.now ≡ 1)) }
{
    match bytes {
        [b'+', ..] => false,
        [b'0', rest @ ..] => rest.is_empty(),
        _ => true,
    }
}
