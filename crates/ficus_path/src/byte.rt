ghost use Rattle.std.specs.Prelude.{◌≡◌, ◌↔◌, ◌<◌, ℕ, List, [], ◌∷◌, ◌++◌, false, IsTrue, IfSome, IfNone, OnOk, OnErr};
ghost use Rattle.std.specs.Fmt.{digit_glyph};
ghost use Rattle.ficus_path.specs.Spelling.{is_plain, hex_text, byte_text};

use ficus_ids::Memory;

/// The byte that the spelling at the front of `text` stands for, and the text after it. `None` comes exactly
/// where no byte's spelling stands there.
#[tactic(auto, unfolding(crate::specs::Spelling::byte_text))]
pub fn read_byte(text: &[u8]) -> Option<(u8, &[u8])>
    ensures found { IfSome result (λ read. text.now ≡ byte_text read.0 ++ read.1.now) }
    ensures none { IfNone result ((byte : ℕ) (rest : List ℕ) → text.now ≡ byte_text byte ++ rest → ⊥) }
{
    match text {
        [b'\\', rest @ ..] => read_escape(rest),
        [byte, rest @ ..] if is_plain(*byte) => Some((*byte, rest)),
        _ => None,
    }
}

// What `read_byte` answers, after the backslash.
#[tactic(auto, unfolding(crate::specs::Spelling::byte_text))]
fn read_escape(text: &[u8]) -> Option<(u8, &[u8])>
    ensures found { IfSome result (λ read. 92 ∷ text.now ≡ byte_text read.0 ++ read.1.now) }
    ensures none { IfNone result ((byte : ℕ) (rest : List ℕ) → 92 ∷ text.now ≡ byte_text byte ++ rest → ⊥) }
{
    match text {
        [b'\\', rest @ ..] => Some((b'\\', rest)),
        [b'n', rest @ ..] => Some((b'\n', rest)),
        [b'x', high, low, rest @ ..] => Some((read_hex(*high, *low)?, rest)),
        _ => None,
    }
}

// The byte that is written by `\x` and these digits. One that has another spelling isn't.
fn read_hex(high: u8, low: u8) -> Option<u8>
    ensures found { IfSome result (λ byte. 92 ∷ 120 ∷ high ∷ low ∷ [] ≡ byte_text byte) }
    ensures none { IfNone result ((byte : ℕ) → 92 ∷ 120 ∷ high ∷ low ∷ [] ≡ byte_text byte → ⊥) }
{
    let byte = 16 * hex_value(high)? + hex_value(low)?;
    if is_hexed(byte) { Some(byte) } else { None }
}

#[tactic(auto, unfolding(crate::specs::Spelling::byte_text))]
fn is_hexed(byte: u8) -> bool
    ensures { IsTrue result ↔ (byte_text byte ≡ hex_text byte) }
{
    !is_plain(byte) && byte != b'\\' && byte != b'\n'
}

fn hex_value(digit: u8) -> Option<u8>
    ensures fits { IfSome result (λ value. value < 16) }
    ensures found { IfSome result (λ value. digit ≡ digit_glyph false value) }
    ensures none { IfNone result ((value : ℕ) → value < 16 → digit ≡ digit_glyph false value → ⊥) }
{
    match digit {
        b'0'..=b'9' => Some(digit - b'0'),
        b'a'..=b'f' => Some(digit - b'a' + 10),
        _ => None,
    }
}

fn is_plain(byte: u8) -> bool
    ensures { result ≡ is_plain byte }
{
    byte >= 0x21 && byte != b'\\' && byte != 0x7f
}

/// Writes the spelling of the byte at the end. After `Memory` all is as before.
#[tactic(auto, unfolding(crate::specs::Spelling::byte_text))]
pub fn append_byte(out: &mut Vec<u8>, byte: u8) -> Result<(), Memory>
    ensures ok { OnOk result (out.new.items ≡ out.old.items ++ byte_text byte) }
    ensures err { OnErr result (out.new.items ≡ out.old.items) }
{
    match byte {
        b'\\' => out.extend_from_slice(b"\\\\")?,
        b'\n' => out.extend_from_slice(b"\\n")?,
        _ if is_plain(byte) => out.push(byte)?,
        _ => out.extend_from_slice(&[b'\\', b'x', hex_digit(byte / 16), hex_digit(byte % 16)])?,
    }
    Ok(())
}

fn hex_digit(value: u8) -> u8
    requires { value < 16 }
    ensures { result ≡ digit_glyph false value }
{
    if value < 10 {
        b'0' + value
    } else {
        b'a' + value - 10
    }
}
