ghost use Rattle.std.specs.Prelude.{◌≡◌};
ghost use Rattle.ficus_mailbox.specs.declared.found.FindFault.TheVariants.{Failed as FindFailed, Memory as FindMemory};

use ficus_faults::Failed;
use ficus_ids::{Listed, Memory};

/// What a mailbox has under a name.
#[derive(Drop)]
pub enum Found {
    /// Nothing.
    Nothing,
    /// More bytes than a message with its tag has, so no message.
    Oversized,
    /// These bytes, at most as many as a message with its tag has.
    Bytes(Listed<u8>),
}

/// What a mailbox gave for a name.
#[derive(Drop)]
pub struct Given {
    pub name: Listed<u8>,
    pub found: Found,
}

/// Why a mailbox didn't say what it has.
#[derive(Clone, Copy, Debug, PartialEq, Eq)]
pub enum FindFault {
    /// The mailbox failed.
    Failed,
    /// Memory was refused.
    Memory,
}

impl From<Failed> for FindFault {
    ghost from_gives = { λ _ fault. fault ≡ FindFailed };

    fn from(_: Failed) -> FindFault {
        FindFault::Failed
    }
}

impl From<Memory> for FindFault {
    ghost from_gives = { λ _ fault. fault ≡ FindMemory };

    fn from(_: Memory) -> FindFault {
        FindFault::Memory
    }
}
