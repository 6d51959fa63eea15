ghost use Rattle.std.specs.Prelude.{◌≡◌, ◌+◌, ◌≤◌, ℕ, List, ◌++◌, length, vec_capacity, OnOk};
ghost use Rattle.ficus_disk.specs.Bytes.{patch};

use crate::overwrite::{reserve_upto, write_over};
use ficus_ids::Memory;
use std::alloc::Global;

/// What undoes each write since the last sync. Kept are the bytes of one range that was written over, as they were
/// synced, so what is appended and synced mostly costs nothing.
#[derive(Drop)]
pub(crate) struct Undo {
    // So many bytes were synced.
    count: usize,
    // Those that are kept stood from here on.
    from: usize,
    kept: Vec<u8>,
    ghost within: { from + length kept.items ≤ count },
}

impl Undo {
    ghost use Rattle.ficus_disk.specs.Undo.{synced_in, undo_room};

    /// No byte was synced. Takes no memory.
    pub(crate) fn new(alloc: Global) -> Undo
        ensures { result.count ≡ 0 }
    {
        Undo {
            count: 0,
            from: 0,
            kept: Vec::new(alloc),
        }
    }

    /// Afterwards so many bytes are kept without memory.
    pub(crate) fn reserve(&mut self, upto: usize) -> Result<(), Memory>
        ensures reserved { OnOk result (upto ≤ undo_room self.new) }
        ensures count { self.new.count ≡ self.old.count }
        ensures synced { (bytes : List ℕ) → synced_in self.new bytes ≡ synced_in self.old bytes }
        ensures room { undo_room self.old ≤ undo_room self.new }
    {
        reserve_upto(&mut self.kept, upto)
    }

    /// So many bytes are written from `at` on: keeps what was synced there. What is appended needs nothing.
    pub(crate) fn keep(&mut self, bytes: &[u8], at: usize, count: usize)
        requires place { at ≤ length bytes.now }
        requires counted { self.old.count ≤ length bytes.now }
        requires room { self.old.count ≤ undo_room self.old }
        requires end { at + count ≤ undo_room self.old }
        ensures count { self.new.count ≡ self.old.count }
        ensures synced { (over : List ℕ) → length over ≡ count
            → synced_in self.new (patch bytes.now at over) ≡ synced_in self.old bytes.now }
        ensures appends { self.old.count ≤ at → self.new ≡ self.old }
        ensures room { undo_room self.old ≤ undo_room self.new }
    {
        let upto = self.count.min(at + count);
        if at < upto {
            self.start(bytes, at);
            self.keep_before(bytes, at);
            self.keep_behind(bytes, upto);
        }
    }

    // Where nothing is kept, the range begins here.
    fn start(&mut self, bytes: &[u8], at: usize)
        requires place { at ≤ self.old.count }
        requires counted { self.old.count ≤ length bytes.now }
        ensures count { self.new.count ≡ self.old.count }
        ensures same { patch bytes.now self.new.from self.new.kept.items
            ≡ patch bytes.now self.old.from self.old.kept.items }
        ensures room { undo_room self.old ≤ undo_room self.new }
    {
        if self.kept.is_empty() {
            self.from = at;
        }
    }

    // Keeps the bytes from `at` up to those that are kept.
    fn keep_before(&mut self, bytes: &[u8], at: usize)
        requires counted { self.old.count ≤ length bytes.now }
        requires room { self.old.count ≤ undo_room self.old }
        ensures count { self.new.count ≡ self.old.count }
        ensures from { self.new.from ≤ at }
        ensures same { patch bytes.now self.new.from self.new.kept.items
            ≡ patch bytes.now self.old.from self.old.kept.items }
        ensures room { undo_room self.old ≤ undo_room self.new }
    {
        let from = self.from;
        if at < from {
            put_before(&mut self.kept, &bytes[at..from]);
            self.from = at;
        }
    }

    // Keeps the bytes behind those that are kept, up to `upto`.
    fn keep_behind(&mut self, bytes: &[u8], upto: usize)
        requires place { upto ≤ self.old.count }
        requires counted { self.old.count ≤ length bytes.now }
        requires room { self.old.count ≤ undo_room self.old }
        ensures count { self.new.count ≡ self.old.count }
        ensures from { self.new.from ≡ self.old.from }
        ensures upto { upto ≤ self.new.from + length self.new.kept.items }
        ensures same { patch bytes.now self.new.from self.new.kept.items
            ≡ patch bytes.now self.old.from self.old.kept.items }
        ensures room { undo_room self.old ≤ undo_room self.new }
    {
        let end = self.from + self.kept.len();
        if end < upto {
            put_behind(&mut self.kept, &bytes[end..upto]);
        }
    }

    /// Makes the bytes those at the last sync.
    pub(crate) fn restore(&self, bytes: &mut Vec<u8>)
        requires { self.now.count ≤ length bytes.old.items }
        ensures bytes { bytes.new.items ≡ synced_in self.now bytes.old.items }
        ensures room { vec_capacity bytes.old ≤ vec_capacity bytes.new }
    {
        write_over(bytes, self.from, &self.kept);
        bytes.truncate(self.count);
    }

    /// All so many bytes are synced.
    pub(crate) fn clear(&mut self, count: usize)
        ensures count { self.new.count ≡ count }
        ensures synced { (bytes : List ℕ) → length bytes ≡ count → synced_in self.new bytes ≡ bytes }
        ensures room { undo_room self.old ≤ undo_room self.new }
    {
        self.kept.clear();
        self.from = 0;
        self.count = count;
    }
}

// Puts the bytes before those that are there.
fn put_before(to: &mut Vec<u8>, bytes: &[u8])
    requires { length to.old.items + length bytes.now ≤ vec_capacity to.old }
    ensures items { to.new.items ≡ bytes.now ++ to.old.items }
    ensures room { vec_capacity to.old ≤ vec_capacity to.new }
{
    put_behind(to, bytes);
    to.rotate_right(bytes.len());
}

// Puts the bytes behind those that are there.
fn put_behind(to: &mut Vec<u8>, bytes: &[u8])
    requires { length to.old.items + length bytes.now ≤ vec_capacity to.old }
    ensures items { to.new.items ≡ to.old.items ++ bytes.now }
    ensures room { vec_capacity to.old ≤ vec_capacity to.new }
{
    let _all = to.extend_from_slice(bytes);
}
