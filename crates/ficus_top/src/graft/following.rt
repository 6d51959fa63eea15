use ficus_ids::{Memory, Refusal};

/// Where a path led: to this volume, behind so many of its parts.
#[derive(Clone, Copy)]
pub(crate) struct End {
    pub(crate) volume: u8,
    pub(crate) passed: usize,
}

/// Why nothing more is sent for a line.
#[derive(Clone, Copy)]
pub(crate) enum Stop {
    /// Memory was refused.
    Memory,
    /// A look was refused so, or the paths lead to different volumes.
    Refused(Refusal),
}

impl From<Memory> for Stop {
    ghost use Rattle.std.specs.Prelude.{◌≡◌};
    ghost use Rattle.ficus_top.specs.declared.graft.following.Stop.TheVariants.{Memory as OutOfMemory};

    ghost from_gives = { λ _ stop. stop ≡ OutOfMemory };

    fn from(_: Memory) -> Stop {
        Stop::Memory
    }
}
