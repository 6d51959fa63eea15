ghost use Rattle.std.specs.Prelude.{◌≡◌, ◌≤◌, length};
ghost use Rattle.ficus_mailbox.specs.Letter.{Letter as LetterValue};

use crate::MessageName;
use arrayvec::ArrayVec;
use ficus_ids::Listed;
use std::marker::Model;

/// The most bytes that a message has with its tag: 16 of the tag, and 4,124 of a piece of 4,096 bytes.
pub const LETTER_LIMIT: usize = 4140;

/// A file that came: its name, and what it holds.
#[derive(Drop)]
pub struct Filed {
    pub name: Listed<u8>,
    pub bytes: Listed<u8>,
}

/// A message that was put: its name, and its bytes, which lie in the value itself.
#[derive(Drop)]
pub struct Letter {
    name: MessageName,
    bytes: ArrayVec<u8, LETTER_LIMIT>,
}

impl Model for Letter {
    ghost Value = { LetterValue };

    ghost view = { λ l. record { name = l.name; bytes = l.bytes.items } };
}

impl Letter {
    pub(crate) fn new(name: MessageName, bytes: &[u8]) -> Letter
        requires { length bytes.now ≤ LETTER_LIMIT }
        ensures { result ≡ record { name = name; bytes = bytes.now } }
    {
        let mut held = ArrayVec::new();
        for byte in bytes {
            held.push(*byte);
        }
        Letter { name, bytes: held }
    }

    /// The name under which it was put.
    pub fn name(&self) -> MessageName
        ensures { result ≡ self.now.name }
    {
        self.name
    }

    /// The bytes, in order.
    pub fn bytes(&self) -> &[u8]
        ensures { result.now ≡ self.now.bytes }
    {
        &self.bytes
    }
}
