ghost use Rattle.std.specs.Prelude.{◌≡◌, ◌≢◌, IfErr, IfNone, IfSome, IsErr};
ghost use Rattle.std.specs.Io.{ReadsAtMost};
ghost use Rattle.std.specs.Io.KnownBytes.{ReadConsumes};
ghost use Rattle.std.specs.IoError.{error_kind};
ghost use Rattle.ficus_outside.specs.Calls.{TakesFrom};
ghost use Rattle.ficus_outside.specs.Stream.{StreamState};

use crate::Source;
use ficus_faults::{Failed, Faults};
use std::io;
use std::io::{ErrorKind, Read};
use std::marker::Model;

/// A reader as a source. It counts the reader's faults, and tells nothing of what is left.
#[derive(Drop)]
pub(crate) struct ReaderSource<R: Read + Drop> {
    reader: R,
    faults: Faults,
}

impl<R: Read + Drop> Model for ReaderSource<R> {
    ghost Value = { StreamState };

    ghost view = { λ s. record { known = R.remaining s.reader; faults = s.faults } };
}

impl<R: Read + Drop> ReaderSource<R> {
    /// The reader, with no fault counted.
    pub(crate) fn new(reader: R) -> ReaderSource<R>
        ensures { result ≡ record { known = R.remaining reader; faults = 0 } }
    {
        ReaderSource {
            reader,
            faults: Faults::new(),
        }
    }
}

impl<R: Read + Drop> Source for ReaderSource<R> {
    ghost faults = { λ s. s.faults };

    fn take(&mut self, into: &mut [u8]) -> Result<usize, Failed>
        ensures { TakesFrom self.old self.new result into.new }
    {
        match read_through(&mut self.reader, into) {
            Ok(count) => Ok(count),
            Err(_) => Err(self.faults.raise()),
        }
    }
}

// One read, tried again where it was interrupted.
fn read_through<R: Read>(reader: &mut R, into: &mut [u8]) -> io::Result<usize>
    ensures within { ReadsAtMost result into.new }
    ensures read { ReadConsumes (R.remaining reader.old) (R.remaining reader.new) result into.new }
    ensures tried { IfErr result (λ error. error_kind error ≢ ErrorKind.Interrupted) }
{
    for _ in 0..u64::MAX {
        if let Some(answer) = unless_interrupted(reader.read(into)) {
            return answer;
        }
    }
    Err(ErrorKind::TimedOut.into())
}

/// The answer of a call, but none where this was interrupted, and is to be made again.
pub(crate) fn unless_interrupted(answer: io::Result<usize>) -> Option<io::Result<usize>>
    ensures given { IfSome result (λ given. given ≡ answer) }
    ensures settled { IfSome result (λ given. IfErr given (λ error. error_kind error ≢ ErrorKind.Interrupted)) }
    ensures error { IfNone result (IsErr answer) }
    ensures interrupted { IfNone result (IfErr answer (λ error. error_kind error ≡ ErrorKind.Interrupted)) }
{
    match answer {
        Err(error) if error.kind() == ErrorKind::Interrupted => None,
        answer => Some(answer),
    }
}
