ghost use Rattle.std.specs.Prelude.{◌≡◌, ◌≢◌, OnOk, OnErr};
ghost use Rattle.std.specs.Io.KnownBytes.{Appends};
ghost use Rattle.std.specs.Process.{exit_status};
ghost use Rattle.ficus_top.specs.Status.{status_text_of};
ghost use Rattle.ficus_cli.specs.Ending.{AppendsFront};

use ficus_outside::write_through;
use ficus_top::{Status, status_text};
use std::alloc::Global;
use std::io;
use std::io::{ErrorKind, Write};
use std::process::ExitCode;

/// How the program ends where it doesn't come to call the library: 3 for want of memory; 10, which the library never
/// answers, where the system doesn't give the words as text.
pub(crate) fn status_without_call(cause: ErrorKind) -> Status
    ensures memory { cause ≡ ErrorKind.OutOfMemory → result ≡ record { code = 3; line = 0; replica = 0 } }
    ensures no_text { cause ≢ ErrorKind.OutOfMemory → result ≡ record { code = 10; line = 0; replica = 0 } }
{
    let code = if cause == ErrorKind::OutOfMemory {
        3
    } else {
        10
    };
    Status {
        code,
        line: 0,
        replica: 0,
    }
}

/// Writes the line of the status, and gives its code to the system. Where there is no memory for the line, or the
/// system refuses some of it, a front of it was written, and nothing can be done.
pub(crate) fn end<W: Write>(alloc: Global, status: &Status, errors: &mut W) -> ExitCode
    ensures status { exit_status result ≡ status.now.code }
    ensures line { AppendsFront (W.contents errors.old) (W.contents errors.new)
        (status_text_of status.now.code status.now.line status.now.replica) }
{
    let _ = write_line(alloc, status, errors);
    ExitCode::from(status.code)
}

// Writes the line of the status, and nothing else.
fn write_line<W: Write>(alloc: Global, status: &Status, errors: &mut W) -> io::Result<()>
    ensures whole { OnOk result (Appends (W.contents errors.old) (W.contents errors.new)
        (status_text_of status.now.code status.now.line status.now.replica)) }
    ensures front { AppendsFront (W.contents errors.old) (W.contents errors.new)
        (status_text_of status.now.code status.now.line status.now.replica) }
{
    let text = status_text(alloc, status).map_err(|_| ErrorKind::OutOfMemory)?;
    write_bytes(errors, &text)
}

// Writes the bytes. Where the writer fails, a front of them was written.
fn write_bytes<W: Write>(writer: &mut W, bytes: &[u8]) -> io::Result<()>
    ensures whole { OnOk result (Appends (W.contents writer.old) (W.contents writer.new) bytes.now) }
    ensures front { AppendsFront (W.contents writer.old) (W.contents writer.new) bytes.now }
{
    let mut rest = bytes;
    while !rest.is_empty() {
        let count = write_through(writer, rest)?;
        if count == 0 {
            return Err(ErrorKind::WriteZero.into());
        }
        rest = &rest[count..];
    }
    Ok(())
}
