use ficus_ids::{Memory, Refusal};
use ficus_path::PathFault;
use std::alloc::AllocError;

/// What stops a test before it comes to what it looks at.
#[derive(Clone, Copy, Debug)]
pub(crate) enum Fault {
    /// Bytes are no path.
    NotPath(PathFault),
    /// No entry may be made at a path.
    NotNew,
    /// A path is that of no entry.
    NotEntry,
    /// No replica has such limits.
    Limits,
    /// There are no so many members, none has this number, or they are of another volume.
    Members,
    /// A replica has saved more often than a test does.
    Saves,
    /// Files don't fit themselves.
    Unfit,
    /// A call was refused, if only for want of memory.
    Call(Refusal),
}

impl From<PathFault> for Fault {
    fn from(fault: PathFault) -> Fault {
        Fault::NotPath(fault)
    }
}

impl From<Refusal> for Fault {
    fn from(refusal: Refusal) -> Fault {
        Fault::Call(refusal)
    }
}

impl From<Memory> for Fault {
    fn from(_: Memory) -> Fault {
        Fault::Call(Refusal::Memory)
    }
}

impl From<AllocError> for Fault {
    fn from(_: AllocError) -> Fault {
        Fault::Call(Refusal::Memory)
    }
}
