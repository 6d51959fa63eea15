ghost use Rattle.std.specs.Prelude.{◌≡◌, ◌↔◌, ◌≤◌, ◌++◌, ◌⊎◌, List, ℕ, Ok, drop, length, IsErrOf, IsSome, IfNone, IfOk, IfSome};
ghost use Rattle.ficus_envelope.specs.Envelope.{IsOfVolume, name_of, sealed_bytes};
ghost use Rattle.ficus_ids.specs.Members.{IsCount};
ghost use Rattle.ficus_mailbox.specs.Letter.{letter_limit};
ghost use Rattle.ficus_mailbox.specs.MessageName.{FitsName};
ghost use Rattle.ficus_tag.specs.Tag.{IsTag};
ghost use Rattle.ficus_wire.specs.Message.{FitsMessage, SpellPiece, message_bytes};
ghost use Rattle.ficus_wire.specs.declared.message.Message.{Message as MessageValue};

use crate::UnsealFault;
use ficus_ids::{Members, Memory};
use ficus_mailbox::MessageName;
use ficus_tag::{TAG_SIZE, Tag};
use ficus_wire::{Message, decode, encode};
use std::alloc::Global;

/// A message between members as it travels: the volume's tag, and the message as it is spelled. A mailbox takes that
/// many bytes.
pub fn seal(alloc: Global, tag: Tag, message: &Message, members: Members) -> Result<Vec<u8>, Memory>
    requires { FitsMessage members message.now }
    ensures sealed { IfOk result (λ bytes. bytes.items ≡ sealed_bytes tag message.now) }
    ensures within { IfOk result (λ bytes. length bytes.items ≤ letter_limit) }
{
    let message = encode(alloc, message, members)?;
    seal_spelled(alloc, tag, &message)
}

/// A message as it travels, of its spelling: the volume's tag, and these bytes. Where they spell a message between
/// members, a mailbox takes that many.
pub fn seal_spelled(alloc: Global, tag: Tag, message: &[u8]) -> Result<Vec<u8>, Memory>
    ensures sealed { IfOk result (λ bytes. bytes.items ≡ tag ++ message.now) }
    ensures within { (members : ℕ) (m : MessageValue) → FitsMessage members m → message.now ≡ message_bytes m →
        IfOk result (λ bytes. length bytes.items ≤ letter_limit) }
{
    let mut sealed = Vec::with_capacity(alloc, message.len().saturating_add(TAG_SIZE))?;
    sealed.extend_from_slice(tag.bytes())?;
    sealed.extend_from_slice(message)?;
    Ok(sealed)
}

// What stands behind the tag, or nothing exactly where the bytes don't begin with it.
fn behind(tag: Tag, bytes: &[u8]) -> Option<&[u8]>
    ensures found { IsSome result ↔ IsOfVolume tag bytes.now }
    ensures split { IfSome result (λ rest. bytes.now ≡ tag ++ rest.now) }
    ensures rest { IfSome result (λ rest. rest.now ≡ drop 16 bytes.now) }
    ensures none { IfNone result ((rest : List ℕ) → bytes.now ≡ tag ++ rest → ⊥) }
{
    bytes.strip_prefix(tag.bytes())
}

/// The message between members that stands behind the tag, from the first byte to the last. `OtherVolume` comes
/// exactly where the first sixteen bytes aren't the tag, also where there are fewer; `NotMessage` exactly where they
/// are and what follows spells no message; `Memory` only where it spells a piece.
pub fn unseal(
    alloc: Global,
    tag: Tag,
    bytes: &[u8],
    members: Members,
) -> Result<Message, UnsealFault>
    ensures fits { IfOk result (λ m. FitsMessage members m) }
    ensures sealed { IfOk result (λ m. bytes.now ≡ sealed_bytes tag m) }
    ensures one { (m : MessageValue) → FitsMessage members m → bytes.now ≡ sealed_bytes tag m
        → (result ≡ Ok m) ⊎ IsErrOf result UnsealFault.Memory }
    ensures other_volume { IsErrOf result UnsealFault.OtherVolume ↔ (IsOfVolume tag bytes.now → ⊥) }
    ensures not_message { IsErrOf result UnsealFault.NotMessage →
        (m : MessageValue) → FitsMessage members m → bytes.now ≡ sealed_bytes tag m → ⊥ }
    ensures memory { IsErrOf result UnsealFault.Memory → SpellPiece members (drop 16 bytes.now) }
{
    let message = behind(tag, bytes).ok_or(UnsealFault::OtherVolume)?;
    Ok(decode(alloc, message, members)?)
}

/// The name under which a message travels. Takes no memory.
pub fn name_of(message: &Message) -> MessageName
    ensures { result ≡ name_of message.now }
{
    match message {
        Message::Ask { from, to, number } => MessageName::Ask {
            from: *from,
            to: *to,
            number: *number,
        },
        Message::Piece {
            from,
            to,
            number,
            state,
            index,
            ..
        } => MessageName::Piece {
            from: *from,
            to: *to,
            number: *number,
            state: *state,
            index: *index,
        },
    }
}

/// The laws that a message between members has a name that fits, and that a mailbox takes it with its tag. It does
/// nothing when it runs.
pub fn sealed_messages_fit()
    ensures named { (members : ℕ) (m : MessageValue) → IsCount members → FitsMessage members m → FitsName (name_of m) }
    ensures within { (tag : List ℕ) (members : ℕ) (m : MessageValue) → IsTag tag → FitsMessage members m →
        length (sealed_bytes tag m) ≤ letter_limit }
{}
