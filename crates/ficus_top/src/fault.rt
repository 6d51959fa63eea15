use ficus_faults::Failed;
use ficus_loop::AnsweringFault;
use ficus_opening::WorldFault;
use ficus_words::WordsFault;

/// Why a run ended before all was done that the words ask for.
#[derive(Clone, Copy)]
pub enum Fault {
    /// The words weren't read, or they aren't those of a mode.
    Words(WordsFault),
    /// The script wasn't read.
    Reading(ReadingFault),
    /// The volume wasn't made, or not opened.
    Storing(WorldFault),
    /// Not every command was answered, or not all that is to be told was put.
    Answering(AnsweringFault),
}

impl From<ReadingFault> for Fault {
    ghost use Rattle.std.specs.Prelude.{◌≡◌};
    ghost use Rattle.ficus_top.specs.declared.fault.Fault.TheVariants.{Reading};

    ghost from_gives = { λ fault result. result ≡ Reading fault };

    fn from(fault: ReadingFault) -> Fault {
        Fault::Reading(fault)
    }
}

impl From<AnsweringFault> for Fault {
    ghost use Rattle.std.specs.Prelude.{◌≡◌};
    ghost use Rattle.ficus_top.specs.declared.fault.Fault.TheVariants.{Answering};

    ghost from_gives = { λ fault result. result ≡ Answering fault };

    fn from(fault: AnsweringFault) -> Fault {
        Fault::Answering(fault)
    }
}

impl From<WorldFault> for Fault {
    ghost use Rattle.std.specs.Prelude.{◌≡◌};
    ghost use Rattle.ficus_top.specs.declared.fault.Fault.TheVariants.{Storing};

    ghost from_gives = { λ fault result. result ≡ Storing fault };

    fn from(fault: WorldFault) -> Fault {
        Fault::Storing(fault)
    }
}

/// Why the script wasn't read.
#[derive(Clone, Copy)]
pub enum ReadingFault {
    /// The line of this number, counted from 1, is the first that may stand in no script.
    BadLine(u32),
    /// Want of memory.
    Memory,
    /// The source failed.
    Source,
    /// The source has more bytes than a script may have.
    TooLong,
}

impl From<Failed> for ReadingFault {
    ghost use Rattle.std.specs.Prelude.{◌≡◌};
    ghost use Rattle.ficus_top.specs.declared.fault.ReadingFault.TheVariants.{Source};

    ghost from_gives = { λ _ fault. fault ≡ Source };

    fn from(_: Failed) -> ReadingFault {
        ReadingFault::Source
    }
}
