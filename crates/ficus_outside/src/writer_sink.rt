ghost use Rattle.std.specs.Prelude.{◌≡◌, ◌≢◌, ◌<◌, ◌≤◌, ◌⊎◌, length, Ok, IfOk, IfErr, OnOk, OnErr, IsErr};
ghost use Rattle.std.specs.Io.{WritesAtMost};
ghost use Rattle.std.specs.Io.KnownBytes.{WriteAppends};
ghost use Rattle.std.specs.IoError.{error_kind};
ghost use Rattle.ficus_faults.specs.Faults.{Rose};
ghost use Rattle.ficus_outside.specs.Stream.{StreamState};

use crate::Sink;
use crate::reader_source::unless_interrupted;
use ficus_faults::{Failed, Faults};
use std::io;
use std::io::{ErrorKind, Write};
use std::marker::Model;

/// A writer as a sink. It counts the writer's faults, keeps no buffer, and tells nothing of what was put.
#[derive(Drop)]
pub struct WriterSink<W: Write + Drop> {
    writer: W,
    faults: Faults,
}

impl<W: Write + Drop> Model for WriterSink<W> {
    ghost Value = { StreamState };

    ghost view = { λ s. record { known = W.contents s.writer; faults = s.faults } };
}

impl<W: Write + Drop> WriterSink<W> {
    /// The writer, with no fault counted.
    pub fn over(writer: W) -> WriterSink<W>
        ensures { result ≡ record { known = W.contents writer; faults = 0 } }
    {
        WriterSink {
            writer,
            faults: Faults::new(),
        }
    }

    /// The writer.
    pub fn into_inner(self) -> W
        ensures { W.contents result ≡ self.known }
    {
        let WriterSink { writer, .. } = self;
        writer
    }
}

impl<W: Write + Drop> Sink for WriterSink<W> {
    ghost faults = { λ s. s.faults };

    fn put(&mut self, bytes: &[u8]) -> Result<usize, Failed>
        ensures within { IfOk result (λ count. count ≤ length bytes.now) }
        ensures failed { OnErr result (Rose self.old.faults self.new.faults) }
        ensures none { 0 < length bytes.now → result ≡ Ok 0 → Rose self.old.faults self.new.faults }
        ensures steady { IfOk result (λ count. (0 < count) ⊎ (length bytes.now ≡ 0)
            → self.new.faults ≡ self.old.faults) }
        ensures counted { self.old.faults ≤ self.new.faults }

        // The writer holds what was taken besides, and with a fault nothing.
        ensures written { WriteAppends self.old.known self.new.known result bytes.now }
    {
        let written = write_through(&mut self.writer, bytes);
        judge(&mut self.faults, written, bytes)
    }
}

// What the write of a piece came to: its count, but an error is a fault, and so is nothing of a piece that isn't empty.
fn judge(faults: &mut Faults, written: io::Result<usize>, piece: &[u8]) -> Result<usize, Failed>
    ensures error { OnErr written (IsErr result) }
    ensures nothing { written ≡ Ok 0 → 0 < length piece.now → IsErr result }
    ensures count { IfOk written (λ count. (0 < count) ⊎ (length piece.now ≡ 0) → result ≡ Ok count) }
    ensures steady { OnOk result (faults.new ≡ faults.old) }
    ensures rose { OnErr result (Rose faults.old faults.new) }
    ensures kept { faults.old ≤ faults.new }
{
    match written {
        Ok(count) if 0 < count || piece.is_empty() => Ok(count),
        _ => Err(faults.raise()),
    }
}

/// One write, tried again where it was interrupted.
pub fn write_through<W: Write>(writer: &mut W, bytes: &[u8]) -> io::Result<usize>
    ensures within { WritesAtMost result bytes.now }
    ensures written { WriteAppends (W.contents writer.old) (W.contents writer.new) result bytes.now }
    ensures tried { IfErr result (λ error. error_kind error ≢ ErrorKind.Interrupted) }
{
    for _ in 0..u64::MAX {
        if let Some(answer) = unless_interrupted(writer.write(bytes)) {
            return answer;
        }
    }
    Err(ErrorKind::TimedOut.into())
}
