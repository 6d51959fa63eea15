ghost use Rattle.std.specs.Prelude.{◌≡◌, ◌+◌, ◌-◌, ◌^◌, ◌<◌, ◌≤◌, ◌↔◌, ⊤, [], ◌∷◌, ◌++◌, length, slice_get, Some, Ok, Err, IfOk, OnOk, OnErr};
ghost use Rattle.ficus_faults.specs.Calls.{fresh, called, failed, IsNextListed};
ghost use Rattle.ficus_faults.specs.Faults.{Rose};
ghost use Rattle.ficus_outside.specs.Calls.{FailsAsTold};
ghost use Rattle.ficus_outside.specs.Link.{FailLinkState, OnFailed, OnMemory};

use crate::{FetchFault, Link, MemLink};
use ficus_faults::{Calls, Failed};
use ficus_ids::Memory;
use std::alloc::Global;
use std::marker::Model;

/// A link in memory, which tells its posts, and fails at the calls that it was told.
#[derive(Drop)]
pub struct FailLink {
    link: MemLink,
    calls: Calls,
}

impl Model for FailLink {
    ghost Value = { FailLinkState };

    ghost view = { λ l. record { link = l.link; calls = l.calls } };
}

impl FailLink {
    /// A link without messages. Of its calls of `post` and `fetch`, counted together from 1, those fail that `fail`
    /// lists.
    pub fn new(alloc: Global, fail: Vec<u32>) -> FailLink
        ensures posts { result.link.posts ≡ [] }
        ensures total { result.link.total ≡ 0 }
        ensures calls { result.calls ≡ fresh fail.items }
    {
        FailLink {
            link: MemLink::new(alloc),
            calls: Calls::new(fail),
        }
    }
}

impl Link for FailLink {
    ghost tells = { ⊤ };

    ghost posts = { λ l. l.link.posts };

    ghost total = { λ l. l.link.total };

    ghost room = { λ l. l.link.room };

    ghost faults = { λ l. l.calls.faults };

    fn reserve(&mut self, more: u32) -> Result<(), Memory>
        ensures room { OnOk result (more ≤ self.new.link.room) }
        ensures posts { self.new.link.posts ≡ self.old.link.posts }
        ensures total { self.new.link.total ≡ self.old.link.total }
        ensures steady { self.new.calls.faults ≡ self.old.calls.faults }

        // It counts as no call.
        ensures calls { self.new.calls ≡ self.old.calls }
    {
        self.link.reserve(more)
    }

    fn post(&mut self, message: Vec<u8>) -> Result<u32, Failed>
        requires room { 1 ≤ self.old.link.room }
        requires few { length self.old.link.posts < 2 ^ 32 - 1 }
        requires small { self.old.link.total + length message.items < 2 ^ 64 }
        ensures number { IfOk result (λ number. number ≡ length self.new.link.posts) }
        ensures counted { OnOk result (length self.new.link.posts ≡ length self.old.link.posts + 1) }
        ensures posted { ⊤ → OnOk result (self.new.link.posts ≡ self.old.link.posts ++ message.items ∷ []) }
        ensures total { OnOk result (self.new.link.total ≡ self.old.link.total + length message.items) }
        ensures left { self.old.link.room ≤ self.new.link.room + 1 }
        ensures kept { OnErr result (self.new.link.posts ≡ self.old.link.posts) }
        ensures kept_total { OnErr result (self.new.link.total ≡ self.old.link.total) }
        ensures failed { OnErr result (Rose self.old.calls.faults self.new.calls.faults) }
        ensures steady { OnOk result (self.new.calls.faults ≡ self.old.calls.faults) }
        ensures risen { self.old.calls.faults ≤ self.new.calls.faults }

        // It fails exactly where it was told.
        ensures as_told { FailsAsTold self.old.calls self.new.calls result }
    {
        if self.calls.next() {
            return Err(self.calls.raise());
        }
        Ok(self.link.put(message))
    }

    fn count(&self) -> u32 {
        self.link.count()
    }

    fn total(&self) -> u64 {
        self.link.total()
    }

    fn fetch(&mut self, number: u32) -> Result<Vec<u8>, FetchFault>
        requires at_least { 1 ≤ number }
        requires at_most { number ≤ length self.old.link.posts }
        ensures told { ⊤ → IfOk result (λ message. slice_get self.old.link.posts (number - 1) ≡ Some message.items) }
        ensures posts { self.new.link.posts ≡ self.old.link.posts }
        ensures total { self.new.link.total ≡ self.old.link.total }
        ensures room { self.new.link.room ≡ self.old.link.room }
        ensures failed { OnFailed result (Rose self.old.calls.faults self.new.calls.faults) }
        ensures steady { OnOk result (self.new.calls.faults ≡ self.old.calls.faults) }
        ensures memory { OnMemory result (self.new.calls.faults ≡ self.old.calls.faults) }
        ensures risen { self.old.calls.faults ≤ self.new.calls.faults }

        // It fails exactly where it was told; else it gives the message, or wants memory.
        ensures fails { result ≡ Err FetchFault.Failed ↔ IsNextListed self.old.calls }
        ensures call { OnOk result (self.new.calls ≡ called self.old.calls) }
        ensures call_without_memory { OnMemory result (self.new.calls ≡ called self.old.calls) }
        ensures fault { OnFailed result (self.new.calls ≡ failed self.old.calls) }
    {
        if self.calls.next() {
            self.calls.raise();
            return Err(FetchFault::Failed);
        }
        self.link.fetch(number)
    }
}
