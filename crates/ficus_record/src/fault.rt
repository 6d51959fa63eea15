ghost use Rattle.std.specs.Prelude.{◌≡◌};
ghost use Rattle.ficus_record.specs.RecordFault.{told};

use ficus_formats::ReadFault;
use ficus_ids::Memory;

/// Why bytes gave no record, or a record no replica.
#[derive(Clone, Copy, PartialEq, Eq)]
pub enum RecordFault {
    /// The bytes spell no record.
    NotRecord,
    /// The record doesn't fit what the replica holds.
    Unfit,
    /// Memory was refused.
    Memory,
}

impl From<ReadFault> for RecordFault {
    ghost from_gives = { λ read fault. fault ≡ told read };

    fn from(fault: ReadFault) -> RecordFault {
        match fault {
            ReadFault::Unspelled => RecordFault::NotRecord,
            ReadFault::Memory => RecordFault::Memory,
        }
    }
}

impl From<Memory> for RecordFault {
    ghost use Rattle.ficus_record.specs.declared.fault.RecordFault.TheVariants.{Memory as OutOfMemory};

    ghost from_gives = { λ memory fault. fault ≡ OutOfMemory };

    fn from(_: Memory) -> RecordFault {
        RecordFault::Memory
    }
}
