ghost use Rattle.std.specs.Prelude.{List, [], ℕ};
ghost use Rattle.ficus_mailbox.specs.Calls.{Finds, Puts};
ghost use Rattle.ficus_mailbox.specs.Letter.{Letter as LetterValue};
ghost use Rattle.ficus_mailbox.specs.declared.found.Given.{Given as GivenValue};

use crate::{FindFault, Found, MessageName};
use ficus_faults::Failed;
use std::alloc::Global;

/// Where a member finds the messages that came for it, each under a name, and puts those that it posts. What comes, and
/// when, is the outside's: a call may find what an earlier one didn't, and nothing is known of what it finds.
pub trait Mailbox {
    /// The unit type where the mailbox tells what it gave and what was put, and the empty type where it doesn't, as
    /// where an `impl` says nothing of it.
    ghost tells: { Type 0 } = { ⊥ };

    /// What it gave, in order. A claim only where the mailbox tells it.
    ghost given: { Self → List GivenValue } = { λ _. [] };

    /// The messages that were put, in order. A claim only where the mailbox tells it.
    ghost posted: { Self → List LetterValue } = { λ _. [] };

    /// How often the mailbox has failed. The count stands still at 2^64 - 1.
    ghost faults: { Self → ℕ };

    /// What stands under the name, which stays there. Under bytes that are no file's name nothing does.
    fn find(&mut self, alloc: Global, name: &[u8]) -> Result<Found, FindFault>
        ensures { Finds tells given posted faults name.now self.old self.new result };

    /// Puts a message under its name, in place of one that is there. At each moment, and so after a kill, it is whole
    /// where it is there; after one that fails it is there or it isn't. Takes no memory.
    fn put(&mut self, name: MessageName, message: &[u8]) -> Result<(), Failed>
        ensures { Puts tells given posted faults (record { name = name; bytes = message.now }) self.old self.new
            result };
}
