// What an output asks of the system.
ghost use Rattle.std.specs.Prelude.{None, List, Option};
ghost use Rattle.std.specs.Io.{WritesAtMost};
ghost use Rattle.ficus_outside.specs.Told.{IsAsked, Told, call_of};

use std::io;
use std::io::Print;

/// The call on the system for an output.
pub trait System {
    /// The calls with their answers, in order, where the system tells them.
    ghost told: { Self → Option (List Told) };

    /// Prints a front of the bytes, and answers how many.
    fn print(&mut self, bytes: &[u8]) -> io::Result<usize>
        ensures within { WritesAtMost result bytes.now }
        ensures told { IsAsked (told self.old) (told self.new) (call_of bytes.now result) };
}

/// The call on a runtime. It tells nothing of it: that its line makes the call which the trait names is trusted.
#[derive(Drop)]
pub struct Runtime<R: Print + Clone + Drop> {
    rt: R,
}

impl<R: Print + Clone + Drop> Runtime<R> {
    pub(crate) fn new(rt: R) -> Runtime<R> {
        Runtime { rt }
    }
}

impl<R: Print + Clone + Drop> System for Runtime<R> {
    ghost told = { λ _. None };

    fn print(&mut self, bytes: &[u8]) -> io::Result<usize> {
        self.rt.write_some(bytes)
    }
}
