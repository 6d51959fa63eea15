ghost use Rattle.std.specs.Prelude.{◌≡◌, ◌≢◌, ◌↔◌, ℕ, List, ◌++◌, IsTrue, IfOk, IfSome, IfNone, OnOk, IsErrOf};
ghost use Rattle.ficus_path.specs.Spelling.{byte_text};
ghost use Rattle.ficus_path.specs.Text.{quoted_byte_text, quoted_text};
ghost use Rattle.ficus_path.specs.declared.text.TextFault.TheVariants.{Memory as OutOfMemory};

use crate::byte::{append_byte, read_byte};
use crate::text_draft::TextDraft;
use ficus_ids::Memory;
use std::alloc::Global;
use std::error::Error;
use std::fmt;

/// Why bytes gave no text.
#[derive(Clone, Copy, Debug, PartialEq, Eq)]
pub enum TextFault {
    /// The bytes spell no text.
    NotText,
    /// Memory was refused.
    Memory,
}

impl fmt::Display for TextFault {
    ghost use Rattle.std.specs.Prelude.{Some};
    ghost use Rattle.ficus_path.specs.Text.{text_fault_text};

    ghost output = { λ fault. Some (text_fault_text fault) };

    fn fmt<W: fmt::Write>(&self, f: &mut fmt::Formatter<W>) -> fmt::Result {
        f.write_str(match self {
            TextFault::NotText => "not a text",
            TextFault::Memory => "memory",
        })
    }
}

impl Error for TextFault {}

impl From<Memory> for TextFault {
    ghost from_gives = { λ _ fault. fault ≡ OutOfMemory };

    fn from(_: Memory) -> TextFault {
        TextFault::Memory
    }
}

/// The bytes that the text spelled here has, any bytes in any number, in time linear in their number. `NotText` comes
/// exactly where the bytes spell no text, and `Memory` only where they spell one and memory was refused.
pub fn read_text(alloc: Global, bytes: &[u8]) -> Result<Vec<u8>, TextFault>
    ensures spelling { IfOk result (λ text. bytes.now ≡ quoted_text text.items) }
    ensures not_text { IsErrOf result TextFault.NotText → (text : List ℕ) → bytes.now ≡ quoted_text text → ⊥ }
    ensures memory { IsErrOf result TextFault.Memory → (text : List ℕ) × (bytes.now ≡ quoted_text text) }
{
    let Some(draft) = TextDraft::new(bytes) else {
        return Err(TextFault::NotText);
    };
    Ok(draft.text(alloc)?)
}

// The byte whose spelling in a text stands at the front, and what stands behind it. `None` comes exactly where no
// byte's does.
#[tactic(auto, unfolding(crate::specs::Text::quoted_byte_text))]
pub(crate) fn read_quoted_byte(text: &[u8]) -> Option<(u8, &[u8])>
    ensures found { IfSome result (λ read. text.now ≡ quoted_byte_text read.0 ++ read.1.now) }
    ensures none { IfNone result ((byte : ℕ) (rest : List ℕ) → text.now ≡ quoted_byte_text byte ++ rest → ⊥) }
{
    match text {
        [b'\\', b'"', rest @ ..] => Some((b'"', rest)),
        [b' ', rest @ ..] => Some((b' ', rest)),
        _ => read_as_in_names(text),
    }
}

// What `read_quoted_byte` answers for a byte that is written as in names.
#[tactic(auto, unfolding(crate::specs::Text::quoted_byte_text))]
fn read_as_in_names(text: &[u8]) -> Option<(u8, &[u8])>
    ensures found { IfSome result (λ read. text.now ≡ quoted_byte_text read.0 ++ read.1.now) }
    ensures none { IfNone result ((byte : ℕ) (rest : List ℕ) →
        byte ≢ 34 → byte ≢ 32 → text.now ≡ quoted_byte_text byte ++ rest → ⊥) }
{
    let (byte, rest) = read_byte(text)?;
    if is_as_in_names(byte) {
        Some((byte, rest))
    } else {
        None
    }
}

#[tactic(auto, unfolding(crate::specs::Spelling::byte_text, crate::specs::Text::quoted_byte_text))]
fn is_as_in_names(byte: u8) -> bool
    ensures { IsTrue result ↔ (quoted_byte_text byte ≡ byte_text byte) }
{
    byte != b'"' && byte != b' '
}

/// Writes the one spelling of the text at the end, in time linear in its length.
pub fn append_text(out: &mut Vec<u8>, text: &[u8]) -> Result<(), Memory>
    ensures { OnOk result (out.new.items ≡ out.old.items ++ quoted_text text.now) }
{
    out.push(b'"')?;
    for byte in text {
        append_quoted_byte(out, *byte)?;
    }
    out.push(b'"')?;
    Ok(())
}

#[tactic(auto, unfolding(crate::specs::Text::quoted_byte_text))]
fn append_quoted_byte(out: &mut Vec<u8>, byte: u8) -> Result<(), Memory>
    ensures { OnOk result (out.new.items ≡ out.old.items ++ quoted_byte_text byte) }
{
    match byte {
        b'"' => out.extend_from_slice(b"\\\"")?,
        b' ' => out.push(b' ')?,
        _ => append_byte(out, byte)?,
    }
    Ok(())
}

/// The law that no two texts have one spelling. It does nothing when it runs.
pub fn one_text()
    ensures { (text other : List ℕ) → quoted_text text ≡ quoted_text other → text ≡ other }
{}
