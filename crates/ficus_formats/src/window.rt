ghost use Rattle.std.specs.Prelude.{◌≡◌, ◌+◌, ◌-◌, ◌≤◌, ◌++◌, [], length, take, OnOk};
ghost use Rattle.std.specs.Int.{w64, to_le_bytes};
ghost use Rattle.ficus_formats.specs.Format.{Keeps};

use ficus_ids::Memory;
use std::marker::Model;

// How many bytes a window holds at the most: so few at a time are moved by the processor's vectors.
const WINDOW: usize = 2048;

/// The last bytes of what is spelled, before they stand behind the others: bytes that are put into it take no memory,
/// and cost no look at the room of a buffer. Contracts see it as its bytes.
#[derive(Drop)]
pub struct Window {
    bytes: [u8; WINDOW],
    count: usize,
}

impl Model for Window {
    ghost use Rattle.std.specs.Prelude.{List, ℕ, take, ◌≤◌};

    ghost Value = { List ℕ };

    ghost view = { λ w. take w.count w.bytes };

    ghost invariant = { λ w. w.count ≤ 2048 };
}

impl Window {
    /// No bytes.
    pub fn new() -> Window
        ensures { result ≡ [] }
    {
        Window {
            bytes: [0; WINDOW],
            count: 0,
        }
    }

    /// How many bytes there is still room for.
    pub fn room(&self) -> usize
        ensures { length self.now + result ≡ 2048 }
    {
        WINDOW - self.count
    }

    /// Puts the first bytes of an array behind the others. There is room for all of it.
    pub fn put_front<const N: usize>(&mut self, array: &[u8; N], count: usize)
        requires room { length self.old + length array.now ≤ 2048 }
        requires front { count ≤ length array.now }
        ensures { self.new ≡ self.old ++ take count array.now }
    {
        let from = self.count;
        put_over(&mut self.bytes[from..from + N], array);
        self.count = from + count;
    }

    /// Puts the first bytes of a number behind the others, the low one first. There is room for all eight.
    #[inline(always)]
    pub fn put_number(&mut self, number: u64, count: usize)
        requires room { length self.old + 8 ≤ 2048 }
        requires front { count ≤ 8 }
        ensures { self.new ≡ self.old ++ take count (to_le_bytes w64 number) }
    {
        let from = self.count;
        put_number_over(&mut self.bytes[from..from + 8], number);
        self.count = from + count;
    }

    /// Has room for so many bytes: where there is less, those that it holds are appended to what was spelled before.
    pub fn make_room(&mut self, out: &mut Vec<u8>, count: usize) -> Result<(), Memory>
        requires { count ≤ 2048 }
        ensures room { OnOk result (length self.new + count ≤ 2048) }
        ensures same { OnOk result (out.new.items ++ self.new ≡ out.old.items ++ self.old) }
        ensures kept { Keeps out.old.items out.new.items }
    {
        if self.room() < count {
            return self.flush(out);
        }
        Ok(())
    }

    /// Appends the bytes to those that were spelled before, and is empty.
    pub fn flush(&mut self, out: &mut Vec<u8>) -> Result<(), Memory>
        ensures put { OnOk result (out.new.items ≡ out.old.items ++ self.old) }
        ensures empty { OnOk result (self.new ≡ []) }
        ensures kept { Keeps out.old.items out.new.items }
    {
        out.extend_from_slice(&self.bytes[..self.count])?;
        self.count = 0;
        Ok(())
    }
}

// Puts an array in place of as many bytes. It is assigned, not copied, so none looks whether the two lie apart.
#[inline(always)]
fn put_over<const N: usize>(bytes: &mut [u8], array: &[u8; N])
    requires { length bytes.old ≡ N }
    ensures { bytes.new ≡ array.now }
{
    let Some(place) = bytes.as_mut_array() else {
        unreachable!()
    };
    *place = *array;
}

// Puts a number in place of eight bytes, the low one first. It is spelled there, so it is moved as a number.
#[inline(always)]
fn put_number_over(bytes: &mut [u8], number: u64)
    requires { length bytes.old ≡ 8 }
    ensures { bytes.new ≡ to_le_bytes w64 number }
{
    let Some(place) = bytes.as_mut_array() else {
        unreachable!()
    };
    *place = number.to_le_bytes();
}
