ghost use Rattle.std.specs.Prelude.{◌≡◌, ◌↔◌, IsTrue};
ghost use Rattle.ficus_ids.specs.Rising.{IsRisingBy};
ghost use Rattle.ficus_ids.specs.declared.id.Id.{Id as IdValue};
ghost use Rattle.ficus_formats.specs.Format.{Reads, rising};

use crate::{ReadFault, Reader, Spelling, read_run};
use ficus_ids::{Id, Listed};
use std::alloc::Global;

/// A way to spell values with identifiers.
pub trait RowSpelling: Spelling {
    /// The identifier of a value.
    ghost id_of: { Self.Value → IdValue };

    /// The identifier of a value.
    fn id(value: &Self::Value) -> Id
        ensures { result ≡ id_of value.now };
}

// Whether the identifiers rise strictly.
fn is_rising<S: RowSpelling>(values: &[S::Value]) -> bool
    ensures { IsTrue result ↔ IsRisingBy S.id_of values.now }
{
    for i in 1..values.len() {
        let one = S::id(&values[i - 1]);
        let next = S::id(&values[i]);
        if one >= next {
            return false;
        }
    }
    true
}

/// Reads a count in four bytes, and as many values in strictly rising order of identifiers.
pub fn read_rising<S: RowSpelling>(
    spelling: &S,
    alloc: Global,
    reader: &mut Reader<'_>,
) -> Result<Listed<S::Value>, ReadFault>
where
    S::Value: Drop,
    ensures { Reads (rising S.id_of (S.format spelling.now)) reader.old result reader.new }
{
    let count = reader.number32()?;
    let values = read_run(spelling, alloc, reader, count)?;
    if is_rising::<S>(values.items()) {
        Ok(values)
    } else {
        Err(ReadFault::Unspelled)
    }
}
