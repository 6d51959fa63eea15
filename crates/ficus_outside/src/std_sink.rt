ghost use Rattle.std.specs.Prelude.{◌≡◌, List, None, Option, option_map};
ghost use Rattle.std.specs.Io.{WritesAtMost};
ghost use Rattle.std.specs.Io.KnownBytes.{Keeps, WriteAppends};
ghost use Rattle.ficus_outside.specs.Told.{IsAsked, Told, call_of, shown};

use crate::system::{Runtime, System};
use crate::writer_sink::WriterSink;
use std::io;
use std::io::{Print, Write};
use std::marker::Model;

/// The standard output of a runtime as a sink. It keeps no buffer, and tells nothing of what was put.
pub type StdSink<R> = WriterSink<Output<Runtime<R>>>;

impl<R: Print + Clone + Drop> WriterSink<Output<Runtime<R>>> {
    /// The standard output of `rt`, with no fault counted.
    pub fn new(rt: R) -> StdSink<R>
        ensures { result ≡ record { known = None; faults = 0 } }
    {
        WriterSink::over(Output::over(Runtime::new(rt)))
    }
}

/// The output of a system as a writer that owns the system. It holds what the system has taken, where this tells it.
#[derive(Drop)]
pub struct Output<S: System + Drop> {
    system: S,
}

impl<S: System + Drop> Model for Output<S> {
    ghost Value = { Option (List Told) };

    ghost view = { λ o. S.told o.system };
}

impl<S: System + Drop> Output<S> {
    /// The output of the system.
    pub fn over(system: S) -> Output<S>
        ensures { result ≡ S.told system }
    {
        Output { system }
    }

    /// The system.
    pub fn into_inner(self) -> S
        ensures { S.told result ≡ self }
    {
        let Output { system } = self;
        system
    }
}

impl<S: System + Drop> Write for Output<S> {
    ghost contents = { λ told. option_map shown told };

    #[tactic(auto, using(crate::proofs::Taken::asked_appends))]
    fn write(&mut self, bytes: &[u8]) -> io::Result<usize>
        ensures bound { WritesAtMost result bytes.now }
        ensures bytes { WriteAppends (option_map shown self.old) (option_map shown self.new) result bytes.now }

        // The system is asked once, for all the bytes, and its answer is the answer.
        ensures asked { IsAsked self.old self.new (call_of bytes.now result) }
    {
        self.system.print(bytes)
    }

    fn flush(&mut self) -> io::Result<()>
        ensures bytes { Keeps (option_map shown self.old) (option_map shown self.new) }
        ensures unasked { self.new ≡ self.old }
    {
        Ok(())
    }
}
