ghost use Rattle.std.specs.Prelude.{◌≡◌, ◌↔◌, List, ℕ, replicate, IsSome, IfNone, IfSome};
ghost use Rattle.ficus_tag.specs.Tag.{IsTag, IsTagText, SpellsTag, tag_text};

use hex::FromHex;
use std::marker::Model;

/// How many bytes a tag has.
pub const TAG_SIZE: usize = 16;

/// How many bytes the text of a tag has.
pub const TAG_TEXT_SIZE: usize = 32;

/// What tells a volume's messages from those of other volumes. All machines of a volume have the same.
#[derive(Clone, Copy, PartialEq, Eq)]
pub struct Tag {
    bytes: [u8; TAG_SIZE],
}

impl Model for Tag {
    ghost Value = { List ℕ };

    ghost view = { λ t. t.bytes };

    ghost invariant = { λ t. IsTag t.bytes };

    ghost inverse = { λ bytes. record { bytes = bytes } };
}

impl Tag {
    /// Sixteen zeros, for a volume that was given no tag.
    pub fn none() -> Tag
        ensures { result ≡ replicate 16 0 }
    {
        Tag {
            bytes: [0; TAG_SIZE],
        }
    }

    /// The tag that 32 hexadecimal digits spell, two for each byte, each in lower or upper case. `None` comes exactly
    /// for any other text. Takes no memory.
    #[tactic(auto, using(crate::proofs::Texts::fits, crate::proofs::Texts::is_text, crate::proofs::Texts::no_tag))]
    pub fn read(text: &[u8]) -> Option<Tag>
        ensures spelled { IfSome result (λ tag. SpellsTag text.now tag) }
        ensures found { IsSome result ↔ IsTagText text.now }
        ensures none { IfNone result ((tag : List ℕ) → SpellsTag text.now tag → ⊥) }
    {
        let bytes = <[u8; TAG_SIZE] as FromHex>::from_hex(text).ok()?;
        Some(Tag { bytes })
    }

    /// The one text in which the tag is written: 32 hexadecimal digits in lower case. Takes no memory.
    #[tactic(auto, using(crate::proofs::Texts::written))]
    pub fn text(&self) -> [u8; TAG_TEXT_SIZE]
        ensures written { result ≡ tag_text self.now }
        ensures spelled { SpellsTag result self.now }
    {
        let mut text = [0; TAG_TEXT_SIZE];
        // The room is twice the size, so it never fails.
        let _ = hex::encode_to_slice(self.bytes, &mut text);
        text
    }

    /// The bytes of the tag, sixteen.
    pub fn bytes(&self) -> &[u8]
        ensures bytes { result.now ≡ self.now }
        ensures is { IsTag self.now }
    {
        &self.bytes
    }
}

/// The laws that a tag that is written is read as what it is, and that no text spells two tags. It does nothing when it
/// runs.
#[tactic(auto, using(crate::proofs::Texts::written))]
pub fn one_tag()
    ensures written { (tag : List ℕ) → IsTag tag → SpellsTag (tag_text tag) tag }
    ensures one { (text a b : List ℕ) → SpellsTag text a → SpellsTag text b → a ≡ b }
{}
