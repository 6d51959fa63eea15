use ficus_ids::Memory;
use thiserror::Error;

/// Why words ask for no mode.
#[derive(Clone, Copy, Debug, PartialEq, Eq, Error)]
pub enum WordsFault {
    /// They are those of no mode.
    #[error("usage")]
    Usage,
    /// Memory was refused.
    #[error("memory")]
    Memory,
}

impl From<Memory> for WordsFault {
    ghost use Rattle.std.specs.Prelude.{◌≡◌};
    ghost use Rattle.ficus_words.specs.declared.fault.WordsFault.TheVariants.{Memory as OutOfMemory};

    ghost from_gives = { λ _ fault. fault ≡ OutOfMemory };

    fn from(_: Memory) -> WordsFault {
        WordsFault::Memory
    }
}
