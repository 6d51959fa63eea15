ghost use Rattle.std.specs.Prelude.{◌≡◌, ◌↔◌, ℕ, List, [], IsTrue, IfOk, IfSome, IfNone};
ghost use Rattle.std.specs.List.{flat_map};
ghost use Rattle.ficus_path.specs.Text.{quoted_byte_text, quoted_text, SpellsInside, SpellsText};

use crate::text::read_quoted_byte;
use ficus_ids::Memory;
use std::alloc::Global;
use std::marker::Model;

/// Bytes that spell a text, which was found without memory. Contracts see these bytes.
#[derive(Drop)]
pub struct TextDraft<'a> {
    bytes: &'a [u8],
}

impl<'a> Model for TextDraft<'a> {
    ghost use Rattle.std.specs.Prelude.{ℕ, List};

    ghost Value = { List ℕ };

    ghost view = { λ d. d.bytes.now };
}

impl<'a> TextDraft<'a> {
    /// The bytes, in time linear in their number, or `None` exactly where they spell no text.
    pub fn new(bytes: &'a [u8]) -> Option<TextDraft<'a>>
        ensures same { IfSome result (λ draft. draft ≡ bytes.now) }
        ensures text { IfSome result SpellsText }
        ensures none { IfNone result ((text : List ℕ) → bytes.now ≡ quoted_text text → ⊥) }
    {
        if spells_text(bytes) {
            Some(TextDraft { bytes })
        } else {
            None
        }
    }

    /// Whether they spell the text without a byte.
    pub fn is_empty(&self) -> bool
        ensures { IsTrue result ↔ (self.now ≡ quoted_text []) }
    {
        self.bytes == b"\"\"".as_slice()
    }

    /// The text that they spell, in memory.
    pub fn text(&self, alloc: Global) -> Result<Vec<u8>, Memory>
        requires { SpellsText self.now }
        ensures { IfOk result (λ text. self.now ≡ quoted_text text.items) }
    {
        match self.bytes {
            [b'"', inside @ .., b'"'] => read_inside(alloc, inside),
            _ => unreachable!(),
        }
    }
}

fn spells_text(bytes: &[u8]) -> bool
    ensures { IsTrue result ↔ SpellsText bytes.now }
{
    match bytes {
        [b'"', inside @ .., b'"'] => spells_inside(inside),
        _ => false,
    }
}

// Whether what stands between the quotation marks spells bytes.
fn spells_inside(inside: &[u8]) -> bool
    ensures { IsTrue result ↔ SpellsInside inside.now }
{
    let mut rest = inside;
    while !rest.is_empty() {
        let Some((_, after)) = read_quoted_byte(rest) else {
            return false;
        };
        rest = after;
    }
    true
}

// The bytes that are spelled between the quotation marks.
fn read_inside(alloc: Global, inside: &[u8]) -> Result<Vec<u8>, Memory>
    requires { SpellsInside inside.now }
    ensures { IfOk result (λ text. inside.now ≡ flat_map quoted_byte_text text.items) }
{
    let mut text = Vec::new(alloc);
    let mut rest = inside;
    while !rest.is_empty() {
        let Some((byte, after)) = read_quoted_byte(rest) else {
            unreachable!()
        };
        text.push(byte)?;
        rest = after;
    }
    Ok(text)
}
