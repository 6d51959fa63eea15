ghost use Rattle.std.specs.Prelude.{◌≡◌, ◌+◌, ◌-◌, ◌^◌, ◌<◌, ◌≤◌, List, [], ◌∷◌, ◌++◌, ℕ, length, slice_get, Some, IfOk, OnOk, OnErr};
ghost use Rattle.ficus_faults.specs.Faults.{Rose};
ghost use Rattle.ficus_outside.specs.Link.{OnFailed, OnMemory};

use ficus_faults::Failed;
use ficus_ids::Memory;

/// Why a message isn't fetched.
#[derive(Clone, Copy, PartialEq, Eq)]
pub enum FetchFault {
    /// The link failed.
    Failed,
    /// Memory was refused.
    Memory,
}

/// Where messages are posted, and fetched by their numbers. One that is never fetched is lost; any order, and any
/// number of times, is allowed.
pub trait Link {
    /// The unit type where the link tells its posts, and the empty type where it doesn't.
    ghost tells: { Type 0 };

    /// The messages that were posted. How many they are is told by every link; what they are is a claim only where
    /// the link tells its posts.
    ghost posts: { Self → List (List ℕ) };

    /// How many bytes were posted.
    ghost total: { Self → ℕ };

    /// For how many messages there is room.
    ghost room: { Self → ℕ };

    /// How often the link has failed. The count stands still at 2^64 - 1.
    ghost faults: { Self → ℕ };

    /// Afterwards there is room for so many messages.
    fn reserve(&mut self, more: u32) -> Result<(), Memory>
        ensures room { OnOk result (more ≤ room self.new) }
        ensures posts { posts self.new ≡ posts self.old }
        ensures total { total self.new ≡ total self.old }
        ensures steady { faults self.new ≡ faults self.old };

    /// Posts a message, and answers its number, from 1. Takes no memory, and room for one message at most.
    fn post(&mut self, message: Vec<u8>) -> Result<u32, Failed>
        requires room { 1 ≤ room self.old }
        requires few { length (posts self.old) < 2 ^ 32 - 1 }
        requires small { total self.old + length message.items < 2 ^ 64 }
        ensures number { IfOk result (λ number. number ≡ length (posts self.new)) }
        ensures counted { OnOk result (length (posts self.new) ≡ length (posts self.old) + 1) }
        ensures posted { tells → OnOk result (posts self.new ≡ posts self.old ++ message.items ∷ []) }
        ensures total { OnOk result (total self.new ≡ total self.old + length message.items) }
        ensures left { room self.old ≤ room self.new + 1 }
        ensures kept { OnErr result (posts self.new ≡ posts self.old) }
        ensures kept_total { OnErr result (total self.new ≡ total self.old) }
        ensures failed { OnErr result (Rose (faults self.old) (faults self.new)) }
        ensures steady { OnOk result (faults self.new ≡ faults self.old) }
        ensures risen { faults self.old ≤ faults self.new };

    /// How many messages were posted.
    fn count(&self) -> u32
        ensures { result ≡ length (posts self.now) };

    /// How many bytes were posted.
    fn total(&self) -> u64
        ensures { result ≡ total self.now };

    /// The message with this number.
    fn fetch(&mut self, number: u32) -> Result<Vec<u8>, FetchFault>
        requires at_least { 1 ≤ number }
        requires at_most { number ≤ length (posts self.old) }
        ensures told { tells → IfOk result (λ message. slice_get (posts self.old) (number - 1) ≡ Some message.items) }
        ensures posts { posts self.new ≡ posts self.old }
        ensures total { total self.new ≡ total self.old }
        ensures room { room self.new ≡ room self.old }
        ensures failed { OnFailed result (Rose (faults self.old) (faults self.new)) }
        ensures steady { OnOk result (faults self.new ≡ faults self.old) }
        ensures memory { OnMemory result (faults self.new ≡ faults self.old) }
        ensures risen { faults self.old ≤ faults self.new };
}
