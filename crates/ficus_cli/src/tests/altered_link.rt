// A link that gives other bytes than those that were posted.
ghost use Rattle.std.specs.Prelude.{◌≡◌, ◌+◌, ◌-◌, ◌^◌, ◌<◌, ◌≤◌, ◌∷◌, ◌++◌, [], length, slice_get, Some, IfOk, OnOk, OnErr};
ghost use Rattle.ficus_faults.specs.Faults.{Rose};
ghost use Rattle.ficus_outside.specs.Link.{LinkState, OnFailed, OnMemory};

use ficus_faults::Failed;
use ficus_ids::Memory;
use ficus_outside::{FetchFault, Link, MemLink};
use std::alloc::Global;
use std::marker::Model;

/// What is given in place of what was posted.
#[derive(Clone, Copy)]
pub(crate) enum Alteration {
    /// The message with this number has another byte at this place.
    Byte { number: u32, place: usize, byte: u8 },
    /// Each message is these bytes.
    Whole(&'static [u8]),
}

/// A link that takes what is posted, tells nothing of it, and gives it changed.
#[derive(Drop)]
pub(crate) struct AlteredLink {
    alloc: Global,
    posted: MemLink,
    change: Alteration,
}

impl Model for AlteredLink {
    ghost Value = { LinkState };

    ghost view = { λ l. l.posted };
}

impl AlteredLink {
    /// A link without messages that changes them so.
    pub(crate) fn new(alloc: Global, change: Alteration) -> AlteredLink
        ensures { result.posts ≡ [] }
    {
        AlteredLink {
            alloc,
            posted: MemLink::new(alloc),
            change,
        }
    }
}

impl Link for AlteredLink {
    ghost tells = { ⊥ };

    ghost posts = { λ l. l.posts };

    ghost total = { λ l. l.total };

    ghost room = { λ l. l.room };

    ghost faults = { λ _. 0 };

    fn reserve(&mut self, more: u32) -> Result<(), Memory> {
        self.posted.reserve(more)
    }

    fn post(&mut self, message: Vec<u8>) -> Result<u32, Failed> {
        self.posted.post(message)
    }

    fn count(&self) -> u32 {
        self.posted.count()
    }

    fn total(&self) -> u64 {
        self.posted.total()
    }

    fn fetch(&mut self, number: u32) -> Result<Vec<u8>, FetchFault> {
        let message = self.posted.fetch(number)?;
        match self.change {
            Alteration::Byte {
                number: changed,
                place,
                byte,
            } => Ok(if number == changed {
                with_byte(message, place, byte)
            } else {
                message
            }),
            Alteration::Whole(bytes) => bytes.to_vec(self.alloc).map_err(|_| FetchFault::Memory),
        }
    }
}

// The message with this byte at the place, where it has one there.
fn with_byte(mut message: Vec<u8>, place: usize, byte: u8) -> Vec<u8> {
    if place < message.len() {
        message[place] = byte;
    }
    message
}
