ghost use Rattle.std.specs.Prelude.{◌≡◌};
ghost use Rattle.ficus_keeper.specs.declared.fault.MakeFault.TheVariants.{Failed as MakeFailed, Memory as MakeMemory};
ghost use Rattle.ficus_keeper.specs.declared.fault.StoreFault.TheVariants.{Failed as StoreFailed, Memory as StoreMemory};

use ficus_faults::Failed;
use ficus_ids::Memory;

/// Why nothing was made.
#[derive(Clone, Copy, PartialEq, Eq)]
pub enum MakeFault {
    /// A disk failed.
    Failed,
    /// Memory was refused.
    Memory,
}

impl From<Failed> for MakeFault {
    ghost from_gives = { λ _ fault. fault ≡ MakeFailed };

    fn from(_: Failed) -> MakeFault {
        MakeFault::Failed
    }
}

impl From<Memory> for MakeFault {
    ghost from_gives = { λ _ fault. fault ≡ MakeMemory };

    fn from(_: Memory) -> MakeFault {
        MakeFault::Memory
    }
}

/// Why nothing was opened.
#[derive(Clone, Copy, PartialEq, Eq)]
pub enum StoreFault {
    /// A disk failed.
    Failed,
    /// Nothing is kept on the disks.
    NoImage,
    /// Memory was refused.
    Memory,
}

impl From<Failed> for StoreFault {
    ghost from_gives = { λ _ fault. fault ≡ StoreFailed };

    fn from(_: Failed) -> StoreFault {
        StoreFault::Failed
    }
}

impl From<Memory> for StoreFault {
    ghost from_gives = { λ _ fault. fault ≡ StoreMemory };

    fn from(_: Memory) -> StoreFault {
        StoreFault::Memory
    }
}
