ghost use Rattle.ficus_formats.specs.Format.{byte, number16, number32, number64, id, TakesAt};

use crate::Reader;
use ficus_ids::Id;

/// The byte at a place, from 0, or `None` exactly where none is left there.
pub fn take_u8(bytes: &[u8], at: usize) -> Option<u8>
    ensures { TakesAt byte 1 bytes.now at result }
{
    Reader::at(bytes, at).byte().ok()
}

/// The number in the two bytes from a place on, the high one first, or `None` exactly where fewer are left there.
pub fn take_u16(bytes: &[u8], at: usize) -> Option<u16>
    ensures { TakesAt number16 2 bytes.now at result }
{
    Reader::at(bytes, at).number16().ok()
}

/// The number in the four bytes from a place on, the highest one first, or `None` exactly where fewer are left there.
pub fn take_u32(bytes: &[u8], at: usize) -> Option<u32>
    ensures { TakesAt number32 4 bytes.now at result }
{
    Reader::at(bytes, at).number32().ok()
}

/// The number in the eight bytes from a place on, the highest one first, or `None` exactly where fewer are left there.
pub fn take_u64(bytes: &[u8], at: usize) -> Option<u64>
    ensures { TakesAt number64 8 bytes.now at result }
{
    Reader::at(bytes, at).number64().ok()
}

/// The identifier in the five bytes from a place on, or `None` exactly where fewer are left there.
pub fn take_id(bytes: &[u8], at: usize) -> Option<Id>
    ensures { TakesAt id 5 bytes.now at result }
{
    Reader::at(bytes, at).id().ok()
}
