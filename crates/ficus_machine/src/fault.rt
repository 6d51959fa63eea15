ghost use Rattle.std.specs.Prelude.{◌≡◌};
ghost use Rattle.ficus_machine.specs.Halts.{halt_of};
ghost use Rattle.ficus_machine.specs.declared.fault.Halt.TheVariants.{Memory as HaltMemory, Note as HaltNote, Refused as HaltRefused};
ghost use Rattle.ficus_machine.specs.declared.fault.LineFault.TheVariants.{Memory as LineMemory, Note as LineNote};

use ficus_faults::Failed;
use ficus_ids::{Memory, Refusal};

/// Why a line wasn't answered. The machine takes no further line.
#[derive(Clone, Copy, PartialEq, Eq)]
pub enum LineFault {
    /// Memory was refused.
    Memory,
    /// The note of the open ask wasn't saved: one of its disks failed, or it has been saved 2^64 - 1 times.
    Note,
}

impl From<Memory> for LineFault {
    ghost from_gives = { λ _ fault. fault ≡ LineMemory };

    fn from(_: Memory) -> LineFault {
        LineFault::Memory
    }
}

impl From<Failed> for LineFault {
    ghost from_gives = { λ _ fault. fault ≡ LineNote };

    fn from(_: Failed) -> LineFault {
        LineFault::Note
    }
}

/// Why an answer wasn't taken.
#[derive(Clone, Copy)]
pub(crate) enum Halt {
    /// It is refused.
    Refused(Refusal),
    /// Memory was refused.
    Memory,
    /// The note of the open ask wasn't saved.
    Note,
}

impl From<Memory> for Halt {
    ghost from_gives = { λ _ halt. halt ≡ HaltMemory };

    fn from(_: Memory) -> Halt {
        Halt::Memory
    }
}

impl From<LineFault> for Halt {
    ghost from_gives = { λ fault halt. halt ≡ halt_of fault };

    fn from(fault: LineFault) -> Halt {
        match fault {
            LineFault::Memory => Halt::Memory,
            LineFault::Note => Halt::Note,
        }
    }
}
