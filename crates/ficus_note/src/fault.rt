use ficus_keeper::StoreFault;

/// Why no note was opened.
#[derive(Clone, Copy, PartialEq, Eq)]
pub enum NoteFault {
    /// A disk failed.
    Failed,
    /// Nothing is kept on the disks.
    NoNote,
    /// What is kept spells no note.
    Damaged,
    /// Memory was refused.
    Memory,
}

impl From<StoreFault> for NoteFault {
    ghost use Rattle.std.specs.Prelude.{◌≡◌};
    ghost use Rattle.ficus_note.specs.Faults.{fault_of};

    ghost from_gives = { λ store fault. fault ≡ fault_of store };

    fn from(fault: StoreFault) -> NoteFault {
        match fault {
            StoreFault::Failed => NoteFault::Failed,
            StoreFault::NoImage => NoteFault::NoNote,
            StoreFault::Memory => NoteFault::Memory,
        }
    }
}
