use ficus_ids::{Memory, Refusal};
use ficus_path::PathFault;
use std::io;

/// Why the tour ended early.
#[derive(Debug, Drop)]
pub enum Fault {
    /// The bytes spell no path.
    Path(PathFault),
    /// Nothing can be made at the path.
    NotNew,
    /// There are no two such members of one volume.
    NoPeer,
    /// The replica was saved as often as a replica may be.
    Worn,
    /// A call of a replica was refused.
    Refused(Refusal),
    /// Standard output failed.
    Output(io::Error),
}

impl From<PathFault> for Fault {
    fn from(fault: PathFault) -> Fault {
        Fault::Path(fault)
    }
}

impl From<Refusal> for Fault {
    fn from(refusal: Refusal) -> Fault {
        Fault::Refused(refusal)
    }
}

impl From<Memory> for Fault {
    fn from(_: Memory) -> Fault {
        Fault::Refused(Refusal::Memory)
    }
}

impl From<io::Error> for Fault {
    fn from(error: io::Error) -> Fault {
        Fault::Output(error)
    }
}
