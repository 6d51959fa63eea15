ghost use Rattle.std.specs.Prelude.{◌≡◌};
ghost use Rattle.ficus_formats.specs.declared.fault.ReadFault.TheVariants.{Memory as OutOfMemory};

use ficus_ids::Memory;
use std::alloc::{AllocError, AllocFailed};

/// Why no value was read.
#[derive(Clone, Copy, PartialEq, Eq)]
pub enum ReadFault {
    /// The bytes that are left begin with the spelling of no value.
    Unspelled,
    /// Memory was refused.
    Memory,
}

impl From<Memory> for ReadFault {
    ghost from_gives = { λ _ fault. fault ≡ OutOfMemory };

    fn from(_: Memory) -> ReadFault {
        ReadFault::Memory
    }
}

impl From<AllocError> for ReadFault {
    ghost from_gives = { λ _ fault. fault ≡ OutOfMemory };

    fn from(_: AllocError) -> ReadFault {
        ReadFault::Memory
    }
}

impl<T: Drop> From<AllocFailed<T>> for ReadFault {
    ghost from_gives = { λ _ fault. fault ≡ OutOfMemory };

    fn from(_: AllocFailed<T>) -> ReadFault {
        ReadFault::Memory
    }
}
