ghost use Rattle.std.specs.Prelude.{◌≡◌, ◌≢◌, ℕ, IfOk};
ghost use Rattle.ficus_top.specs.Status.{status_text_of};

use crate::fault::{Fault, ReadingFault};
use ficus_ids::Memory;
use ficus_loop::AnsweringFault;
use ficus_opening::WorldFault;
use ficus_words::WordsFault;
use std::alloc::Global;

/// How a run of the program ended: the code with which it ends, and, where the code names them, the line of
/// the script and the replica; otherwise these are 0.
#[derive(Clone, Copy, PartialEq, Eq)]
pub struct Status {
    pub code: u8,
    pub line: u32,
    pub replica: u8,
}

impl Status {
    ghost use Rattle.ficus_top.specs.Status.{code_of, line_of, replica_of};

    /// How a run ended, as numbers.
    pub fn of(ended: Result<(), Fault>) -> Status
        ensures { result ≡ record { code = code_of ended; line = line_of ended; replica = replica_of ended } }
    {
        let (code, line, replica) = match ended {
            Ok(()) => (0, 0, 0),
            Err(Fault::Words(WordsFault::Usage)) => (1, 0, 0),
            Err(Fault::Words(WordsFault::Memory)) => (3, 0, 0),
            Err(Fault::Reading(fault)) => match fault {
                ReadingFault::BadLine(line) => (2, line, 0),
                ReadingFault::Memory => (3, 0, 0),
                ReadingFault::Source => (4, 0, 0),
                ReadingFault::TooLong => (8, 0, 0),
            },
            Err(Fault::Storing(fault)) => match fault {
                WorldFault::Memory => (3, 0, 0),
                WorldFault::Store(replica) => (6, 0, replica),
                WorldFault::Image(replica) => (7, 0, replica),
                WorldFault::Occupied(replica) => (9, 0, replica),
            },
            Err(Fault::Answering(AnsweringFault::Memory)) => (3, 0, 0),
            Err(Fault::Answering(AnsweringFault::Sink)) => (5, 0, 0),
        };
        Status {
            code,
            line,
            replica,
        }
    }
}

/// The line of a status for standard error, ended by byte 10. It is empty for a code without a line.
pub fn status_text(alloc: Global, status: &Status) -> Result<Vec<u8>, Memory>
    ensures { IfOk result (λ text. text.items ≡ status_text_of status.now.code status.now.line status.now.replica) }
{
    let line = status.line;
    let replica = status.replica;
    let text = match status.code {
        2 => format!(in alloc; "ficus: bad line {line}\n")?,
        6 => format!(in alloc; "ficus: store fault at replica {replica}\n")?,
        7 => format!(in alloc; "ficus: no image at replica {replica}\n")?,
        9 => format!(in alloc; "ficus: replica {replica} is occupied\n")?,
        code => String::from_str(alloc, nameless_text(code))?,
    };
    Ok(text.into_bytes())
}

// The line of a status whose code names neither a line nor a replica.
fn nameless_text(code: u8) -> &'static str
    ensures { code ≢ 2 → code ≢ 6 → code ≢ 7 → code ≢ 9 → (line replica : ℕ)
        → result.now ≡ status_text_of code line replica }
{
    match code {
        1 => "ficus: usage\n",
        3 => "ficus: memory\n",
        4 => "ficus: read fault\n",
        5 => "ficus: write fault\n",
        8 => "ficus: script too long\n",
        10 => "ficus: no words\n",
        _ => "",
    }
}
