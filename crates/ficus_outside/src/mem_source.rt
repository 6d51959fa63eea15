ghost use Rattle.std.specs.Prelude.{◌≡◌, ◌<◌, ◌≤◌, ⊤, [], ◌++◌, length, take, drop, min, Ok, IfOk, OnOk, OnErr, vec_len};
ghost use Rattle.ficus_faults.specs.Faults.{Rose};
ghost use Rattle.ficus_faults.specs.Calls.{fresh};
ghost use Rattle.ficus_outside.specs.Calls.{FailsAsTold};
ghost use Rattle.ficus_outside.specs.MemSource.{SourceState};

use crate::Source;
use ficus_faults::{Calls, Failed};
use std::marker::Model;

/// A source of bytes in memory. It tells what is left, and fails at the calls that it was told.
#[derive(Drop)]
pub struct MemSource {
    bytes: Vec<u8>,
    // How many of the bytes were given.
    given: usize,
    calls: Calls,
}

impl Model for MemSource {
    ghost Value = { SourceState };

    ghost view = { λ s. record { left = drop s.given s.bytes.items; calls = s.calls } };

    ghost invariant = { λ s. s.given ≤ vec_len s.bytes };
}

impl MemSource {
    /// A source of `bytes`. Of its calls of `take`, counted from 1, those fail that `fail` lists.
    pub fn new(bytes: Vec<u8>, fail: Vec<u32>) -> MemSource
        ensures { result ≡ record { left = bytes.items; calls = fresh fail.items } }
    {
        MemSource {
            bytes,
            given: 0,
            calls: Calls::new(fail),
        }
    }
}

impl Source for MemSource {
    ghost tells = { ⊤ };

    ghost left = { λ s. s.left };

    ghost faults = { λ s. s.calls.faults };

    fn take(&mut self, into: &mut [u8]) -> Result<usize, Failed>
        ensures within { IfOk result (λ count. count ≤ length into.new) }
        ensures taken { ⊤ → IfOk result (λ count. self.old.left ≡ take count into.new ++ self.new.left) }
        ensures end { ⊤ → 0 < length into.new → result ≡ Ok 0 → self.old.left ≡ [] }
        ensures kept { ⊤ → OnErr result (self.new.left ≡ self.old.left) }
        ensures failed { OnErr result (Rose self.old.calls.faults self.new.calls.faults) }
        ensures steady { OnOk result (self.new.calls.faults ≡ self.old.calls.faults) }
        ensures counted { self.old.calls.faults ≤ self.new.calls.faults }

        // It fails exactly where it was told, and gives as many bytes as fit.
        ensures full { IfOk result (λ count. count ≡ min (length into.new) (length self.old.left)) }
        ensures as_told { FailsAsTold self.old.calls self.new.calls result }
    {
        if self.calls.next() {
            return Err(self.calls.raise());
        }
        let count = copy_front(&self.bytes[self.given..], into);
        self.given += count;
        Ok(count)
    }
}

/// Copies as many bytes as both have, and answers how many.
fn copy_front(from: &[u8], into: &mut [u8]) -> usize
    ensures count { result ≡ min (length into.new) (length from.now) }
    ensures copied { from.now ≡ take result into.new ++ drop result from.now }
{
    let count = from.len().min(into.len());
    into[..count].copy_from_slice(&from[..count]);
    count
}
