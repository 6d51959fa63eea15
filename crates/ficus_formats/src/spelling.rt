ghost use Rattle.std.specs.Prelude.{◌≡◌, ◌≤◌, ◌*◌, ◌++◌, [], IfOk, OnErr, OnOk, vec_capacity};
ghost use Rattle.std.specs.List.{flat_map, AllByRecursion};
ghost use Rattle.ficus_formats.specs.Format.{Format, IsUnique, Keeps, Reads, times};

use crate::{ReadFault, Reader, Window};
use ficus_ids::{Listed, Memory};
use std::alloc::Global;

/// How many bytes a value is thought to have, for the room that a run of them has from its beginning.
const LEAST: usize = 8;

/// A way to spell values as bytes, which reads and writes them.
pub trait Spelling {
    type Value;

    /// Which values have a spelling, and which bytes it is.
    ghost format: { Self → Format Self.Value };

    /// Each has one, and none begins another.
    ghost unique: { (spelling : Self) → IsUnique (format spelling) };

    /// Reads the value with whose spelling the bytes begin that are left.
    fn read(&self, alloc: Global, reader: &mut Reader<'_>) -> Result<Self::Value, ReadFault>
        ensures { Reads (format self.now) reader.old result reader.new };

    /// Appends the spelling of a value.
    fn put(&self, out: &mut Vec<u8>, value: &Self::Value) -> Result<(), Memory>
        requires { (format self.now).fits value.now }
        ensures put { OnOk result (out.new.items ≡ out.old.items ++ (format self.now).spell value.now) }
        ensures kept { OnErr result (Keeps out.old.items out.new.items) };
}

/// A way to spell values that writes them through a window.
pub trait WindowSpelling: Spelling {
    /// Puts the spelling of a value behind what was spelled before, of which the window holds the last bytes.
    fn put_in(
        &self,
        window: &mut Window,
        out: &mut Vec<u8>,
        value: &Self::Value,
    ) -> Result<(), Memory>
        requires { (Self.Spelling.format self.now).fits value.now }
        ensures put { OnOk result (out.new.items ++ window.new
            ≡ (out.old.items ++ window.old) ++ (Self.Spelling.format self.now).spell value.now) }
        ensures kept { Keeps out.old.items out.new.items };
}

/// Appends the spellings of the values, one after the other.
pub fn put_run<S: Spelling>(
    spelling: &S,
    out: &mut Vec<u8>,
    values: &[S::Value],
) -> Result<(), Memory>
    requires { AllByRecursion (S.format spelling.now).fits values.now }
    ensures put { OnOk result (out.new.items ≡ out.old.items ++ flat_map (S.format spelling.now).spell values.now) }
    ensures kept { OnErr result (Keeps out.old.items out.new.items) }
{
    for value in values {
        spelling.put(out, value)?;
    }
    Ok(())
}

/// Reads as many values as said, one after the other.
#[tactic(auto, using(crate::proofs::Runs::run_begins, crate::proofs::Runs::run_goes_on))]
pub fn read_run<S: Spelling>(
    spelling: &S,
    alloc: Global,
    reader: &mut Reader<'_>,
    count: u32,
) -> Result<Listed<S::Value>, ReadFault>
where
    S::Value: Drop,
    ensures { Reads (times count (S.format spelling.now)) reader.old result reader.new }
{
    let mut values = room(alloc, count, reader.len())?;
    for _ in 0..count {
        values.push(spelling.read(alloc, reader)?)?;
    }
    Ok(Listed::of(values))
}

// An empty list with room for as many values as are said to come, but for no more than the bytes that are left may
// spell: what is said of them may be damaged.
fn room<T>(alloc: Global, said: u32, left: usize) -> Result<Vec<T>, Memory>
    ensures empty { IfOk result (λ values. values.items ≡ []) }
    ensures said { IfOk result (λ values. vec_capacity values ≤ said) }
    ensures there { IfOk result (λ values. 8 * vec_capacity values ≤ left) }
{
    let most = left / LEAST;
    let values = Vec::with_capacity(alloc, most.min(said as usize))?;
    Ok(values)
}
