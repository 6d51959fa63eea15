ghost use Rattle.std.specs.Prelude.{◌≡◌, ◌<◌, ◌≤◌, ◌↔◌, ◌⊎◌, ◌+◌, ⊤, [], ◌++◌, length, take, Ok, IfOk, OnOk, OnErr, IsErr, vec_len, vec_capacity};
ghost use Rattle.ficus_faults.specs.Faults.{Rose};
ghost use Rattle.ficus_faults.specs.Calls.{fresh, called, failed, IsNextListed};
ghost use Rattle.ficus_outside.specs.MemSink.{SinkState, sink_room};

use crate::Sink;
use ficus_faults::{Calls, Failed};
use ficus_ids::Memory;
use std::alloc::Global;
use std::marker::Model;

/// How many bytes a [`MemSink`] has room for: 8 MiB.
pub const MEM_SINK_ROOM: usize = 8 * 1024 * 1024;

/// A sink of bytes in memory. It tells what was put, and fails at the calls that it was told.
#[derive(Drop)]
pub struct MemSink {
    written: Vec<u8>,
    calls: Calls,
}

impl Model for MemSink {
    ghost Value = { SinkState };

    ghost view = { λ s. record { written = s.written.items; calls = s.calls } };

    ghost invariant = { λ s. (vec_len s.written ≤ sink_room) × (sink_room ≤ vec_capacity s.written) };
}

impl MemSink {
    /// A sink with nothing put. Of its calls of `put`, counted from 1, those fail that `fail` lists.
    /// The whole room is taken here, or else the answer is `Memory`: `put` takes none.
    pub fn new(alloc: Global, fail: Vec<u32>) -> Result<MemSink, Memory>
        ensures { IfOk result (λ sink. sink ≡ record { written = []; calls = fresh fail.items }) }
    {
        Ok(MemSink {
            written: Vec::with_capacity(alloc, MEM_SINK_ROOM)?,
            calls: Calls::new(fail),
        })
    }

    /// The bytes that were put, in order.
    pub fn written(&self) -> &[u8]
        ensures { result.now ≡ self.now.written }
    {
        &self.written
    }
}

impl Sink for MemSink {
    ghost tells = { ⊤ };

    ghost written = { λ s. s.written };

    ghost faults = { λ s. s.calls.faults };

    fn put(&mut self, bytes: &[u8]) -> Result<usize, Failed>
        ensures within { IfOk result (λ count. count ≤ length bytes.now) }
        ensures written { ⊤ → IfOk result (λ count. self.new.written ≡ self.old.written ++ take count bytes.now) }
        ensures kept { ⊤ → OnErr result (self.new.written ≡ self.old.written) }
        ensures failed { OnErr result (Rose self.old.calls.faults self.new.calls.faults) }
        ensures none { 0 < length bytes.now → result ≡ Ok 0 → Rose self.old.calls.faults self.new.calls.faults }
        ensures steady { IfOk result (λ count. (0 < count) ⊎ (length bytes.now ≡ 0)
            → self.new.calls.faults ≡ self.old.calls.faults) }
        ensures counted { self.old.calls.faults ≤ self.new.calls.faults }

        // It fails exactly where it was told or the room would be passed, and takes the whole piece else.
        ensures fails { IsErr result
            ↔ (IsNextListed self.old.calls ⊎ (sink_room < length self.old.written + length bytes.now)) }
        ensures whole { IfOk result (λ count. count ≡ length bytes.now) }
        ensures call { OnOk result (self.new.calls ≡ called self.old.calls) }
        ensures fault { OnErr result (self.new.calls ≡ failed self.old.calls) }
    {
        let listed = self.calls.next();
        if listed || bytes.len() > MEM_SINK_ROOM - self.written.len() {
            return Err(self.calls.raise());
        }
        self.written.extend_from_slice(bytes).unwrap();
        Ok(bytes.len())
    }
}
