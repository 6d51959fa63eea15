ghost use Rattle.std.specs.Prelude.{◌↔◌, length, IsTrue};
ghost use Rattle.ficus_durable_state.specs.Saved.{FitsImage};
ghost use Rattle.ficus_rules.specs.Limits.{LimitsUpTo};
ghost use Rattle.ficus_rules.specs.Rule.{Gives, UnlessMemory};
ghost use Rattle.ficus_deciding.specs.View.{tables_view};

use ficus_durable_state::Saved;
use ficus_ids::{Listed, Refusal};
use std::alloc::Global;

/// Whether the replica has made all the updates that it may make.
pub(crate) fn is_spent(saved: &Saved) -> bool
    ensures { IsTrue result ↔ (tables_view saved.now).spent }
{
    saved.next > saved.ids
}

// Whether so many bytes more are more than the replica may write.
fn is_over_quota(saved: &Saved, bytes: usize) -> bool
    requires { FitsImage saved.now }
    ensures { IsTrue result ↔ (tables_view saved.now).over_quota bytes }
{
    bytes > (saved.bytes - saved.used) as usize
}

/// Whether so many bytes, and not more than the most, may be written by one more update.
pub(crate) fn within(saved: &Saved, most: usize, bytes: usize) -> Result<(), Refusal>
    requires { FitsImage saved.now }
    ensures { LimitsUpTo most (tables_view saved.now) bytes (Gives tt) result }
{
    if bytes > most {
        return Err(Refusal::TooLong);
    }
    if is_spent(saved) {
        return Err(Refusal::Spent);
    }
    if is_over_quota(saved, bytes) {
        return Err(Refusal::Quota);
    }
    Ok(())
}

/// The bytes, where so many, and not more than the most, may be written by one more update.
pub(crate) fn bytes_within(
    alloc: Global,
    saved: &Saved,
    most: usize,
    bytes: &[u8],
) -> Result<Listed<u8>, Refusal>
    requires { FitsImage saved.now }
    ensures { UnlessMemory (LimitsUpTo most (tables_view saved.now) (length bytes.now) (Gives bytes.now)) result }
{
    within(saved, most, bytes.len())?;
    let bytes = bytes.to_vec(alloc)?;
    Ok(Listed::of(bytes))
}
