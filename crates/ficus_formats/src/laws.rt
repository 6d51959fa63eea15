ghost use Rattle.std.specs.Prelude.{ℕ};
ghost use Rattle.ficus_formats.specs.Format.{IsReadOnce, IsTakenOnce, byte, number16, number32, number64, string, id, times, rising};

use crate::RowSpelling;

/// The law that numbers, identifiers and bytes behind their length are read in one way, and taken in one way from a
/// place. It does nothing when it runs.
pub fn one_number()
    ensures byte { IsReadOnce byte }
    ensures number16 { IsReadOnce number16 }
    ensures number32 { IsReadOnce number32 }
    ensures number64 { IsReadOnce number64 }
    ensures id { IsReadOnce id }
    ensures short_string { IsReadOnce (string byte) }
    ensures long_string { IsReadOnce (string number16) }
    ensures byte_taken { IsTakenOnce byte 1 }
    ensures number16_taken { IsTakenOnce number16 2 }
    ensures number32_taken { IsTakenOnce number32 4 }
    ensures number64_taken { IsTakenOnce number64 8 }
    ensures id_taken { IsTakenOnce id 5 }
{}

/// The law that a value is read in one way by its spelling, and so are as many as said, and a list in rising order.
/// It does nothing when it runs.
pub fn one_reading<S: RowSpelling>()
    ensures value { (spelling : S) → IsReadOnce (S.format spelling) }
    ensures run { (spelling : S) (count : ℕ) → IsReadOnce (times count (S.format spelling)) }
    ensures rising { (spelling : S) → IsReadOnce (rising S.id_of (S.format spelling)) }
{}
