use ficus_ids::{Memory, NameFault};
use ficus_path::PathFault;

/// What stops a test before it comes to what it looks at.
#[derive(Clone, Copy, Debug)]
pub(crate) enum Fault {
    /// Bytes are no name.
    Name(NameFault),
    /// Bytes are no path.
    Path(PathFault),
    /// Memory was refused.
    Memory,
    /// A name led elsewhere than to what had been entered, or there are no so many members.
    Row,
}

impl From<NameFault> for Fault {
    fn from(fault: NameFault) -> Fault {
        Fault::Name(fault)
    }
}

impl From<PathFault> for Fault {
    fn from(fault: PathFault) -> Fault {
        Fault::Path(fault)
    }
}

impl From<Memory> for Fault {
    fn from(_: Memory) -> Fault {
        Fault::Memory
    }
}
