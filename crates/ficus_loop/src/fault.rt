use ficus_faults::Failed;
use ficus_ids::Memory;

/// Why not every command was answered.
#[derive(Clone, Copy)]
pub enum AnsweringFault {
    /// Want of memory.
    Memory,
    /// The sink failed.
    Sink,
}

impl From<Memory> for AnsweringFault {
    ghost use Rattle.std.specs.Prelude.{◌≡◌};
    ghost use Rattle.ficus_loop.specs.declared.fault.AnsweringFault.TheVariants.{Memory as NoMemory};

    ghost from_gives = { λ _ fault. fault ≡ NoMemory };

    fn from(_: Memory) -> AnsweringFault {
        AnsweringFault::Memory
    }
}

impl From<Failed> for AnsweringFault {
    ghost use Rattle.std.specs.Prelude.{◌≡◌};
    ghost use Rattle.ficus_loop.specs.declared.fault.AnsweringFault.TheVariants.{Sink};

    ghost from_gives = { λ _ fault. fault ≡ Sink };

    fn from(_: Failed) -> AnsweringFault {
        AnsweringFault::Sink
    }
}
