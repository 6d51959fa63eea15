use ficus_ids::{Memory, Refusal};

/// Why a sweep ended before its last step. The steps that were done stand.
#[derive(Clone, Copy)]
pub enum SweepFault {
    /// One of its pulls or collections was refused so.
    Stopped(Refusal),
    /// Want of memory.
    Memory,
}

impl From<Memory> for SweepFault {
    ghost use Rattle.std.specs.Prelude.{◌≡◌};
    ghost use Rattle.ficus_loop.specs.declared.sweep_fault.SweepFault.TheVariants.{Memory as NoMemory};

    ghost from_gives = { λ _ fault. fault ≡ NoMemory };

    fn from(_: Memory) -> SweepFault {
        SweepFault::Memory
    }
}
