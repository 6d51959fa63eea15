ghost use Rattle.std.specs.Prelude.{◌≡◌};
ghost use Rattle.ficus_resolve.specs.declared.fault.ResolveFault.TheVariants.{Memory as OutOfMemory};

use thiserror::Error;

/// Why versions weren't resolved.
#[derive(Clone, Copy, Debug, PartialEq, Eq, Error)]
pub enum ResolveFault {
    /// The resolver of the kind declines the contents.
    #[error("declined")]
    Declined,
    /// The result has more bytes than a content may have.
    #[error("too long")]
    TooLong,
    /// Memory was refused.
    #[error("memory")]
    Memory,
}

impl From<ficus_ids::Memory> for ResolveFault {
    ghost from_gives = { λ _ fault. fault ≡ OutOfMemory };

    fn from(_: ficus_ids::Memory) -> ResolveFault {
        ResolveFault::Memory
    }
}
