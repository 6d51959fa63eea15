ghost use Rattle.std.specs.Prelude.{◌≡◌, ◌≤◌, ℕ, List, ◌++◌, length, IfOk, IfSome, IfNone, OnOk};
ghost use Rattle.ficus_ids.specs.Name.{IsName};
ghost use Rattle.ficus_path.specs.Spelling.{name_text};

use crate::byte::{append_byte, read_byte};
use arrayvec::ArrayVec;
use ficus_ids::{Memory, NAME_LIMIT, Name};
use std::alloc::Global;

/// The one spelling of the name.
pub fn write_name(alloc: Global, name: &Name) -> Result<Vec<u8>, Memory>
    ensures { IfOk result (λ text. text.items ≡ name_text name.now) }
{
    let mut text = Vec::new(alloc);
    append_name(&mut text, name)?;
    Ok(text)
}

pub(crate) fn append_name(out: &mut Vec<u8>, name: &Name) -> Result<(), Memory>
    ensures { OnOk result (out.new.items ≡ out.old.items ++ name_text name.now) }
{
    for byte in name.bytes() {
        append_byte(out, *byte)?;
    }
    Ok(())
}

/// The name that the text spells, or `None` exactly where it spells none.
pub(crate) fn read_name(text: &[u8]) -> Option<Name>
    ensures name { IfSome result IsName }
    ensures found { IfSome result (λ name. text.now ≡ name_text name) }
    ensures none { IfNone result ((name : List ℕ) → IsName name → text.now ≡ name_text name → ⊥) }
{
    let bytes = read_bytes(text)?;
    Name::new(&bytes).ok()
}

// The bytes that the text spells, if they are no more than a name may have.
fn read_bytes(text: &[u8]) -> Option<ArrayVec<u8, NAME_LIMIT>>
    ensures found { IfSome result (λ bytes. text.now ≡ name_text bytes.items) }
    ensures none { IfNone result ((bytes : List ℕ) → length bytes ≤ NAME_LIMIT → text.now ≡ name_text bytes → ⊥) }
{
    let mut bytes = ArrayVec::new();
    let mut rest = text;
    while !rest.is_empty() {
        if bytes.is_full() {
            return None;
        }
        let (byte, after) = read_byte(rest)?;
        bytes.push(byte);
        rest = after;
    }
    Some(bytes)
}

/// The law that no two names have one spelling. It does nothing when it runs.
pub fn one_name()
    ensures { (name other : List ℕ) → name_text name ≡ name_text other → name ≡ other }
{}
