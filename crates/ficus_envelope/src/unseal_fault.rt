ghost use Rattle.std.specs.Prelude.{◌≡◌};
ghost use Rattle.ficus_envelope.specs.Envelope.{fault_of};

use ficus_wire::WireFault;

/// Why bytes gave no message of a volume.
#[derive(Clone, Copy, Debug, PartialEq, Eq)]
pub enum UnsealFault {
    /// They don't begin with the volume's tag.
    OtherVolume,
    /// What stands behind the tag spells no message between members.
    NotMessage,
    /// Memory was refused.
    Memory,
}

impl From<WireFault> for UnsealFault {
    ghost from_gives = { λ wire fault. fault ≡ fault_of wire };

    fn from(fault: WireFault) -> UnsealFault {
        match fault {
            WireFault::NotMessage => UnsealFault::NotMessage,
            WireFault::Memory => UnsealFault::Memory,
        }
    }
}
