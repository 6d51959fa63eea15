ghost use Rattle.std.specs.Prelude.{◌≡◌};

use ficus_ids::Memory;
use std::error::Error;
use std::fmt;

/// Why no volume was made, or no world opened: with the number of the replica at fault.
#[derive(Clone, Copy, Debug, PartialEq, Eq)]
pub enum WorldFault {
    /// A disk of this replica holds something already. The first such replica is named.
    Occupied(u8),
    /// A disk of this replica failed.
    Store(u8),
    /// The disks of this replica hold no image with which a world may be opened. The first such replica is named.
    Image(u8),
    /// Memory was refused.
    Memory,
}

impl fmt::Display for WorldFault {
    ghost use Rattle.std.specs.Prelude.{Some};
    ghost use Rattle.ficus_opening.specs.Fault.{fault_text};

    ghost output = { λ fault. Some (fault_text fault) };

    fn fmt<W: fmt::Write>(&self, f: &mut fmt::Formatter<W>) -> fmt::Result {
        match *self {
            WorldFault::Occupied(number) => write!(f, "replica {number} is occupied"),
            WorldFault::Store(number) => write!(f, "store fault at replica {number}"),
            WorldFault::Image(number) => write!(f, "no image at replica {number}"),
            WorldFault::Memory => f.write_str("memory"),
        }
    }
}

impl Error for WorldFault {}

impl From<Memory> for WorldFault {
    ghost use Rattle.ficus_opening.specs.declared.fault.WorldFault.TheVariants.{Memory as NoMemory};

    ghost from_gives = { λ _ fault. fault ≡ NoMemory };

    fn from(_: Memory) -> WorldFault {
        WorldFault::Memory
    }
}
