ghost use Rattle.std.specs.Prelude.{◌+◌, ◌≤◌, OnOk, vec_capacity};
ghost use Rattle.ficus_slot.specs.Slot.{range_size};

use ficus_ids::Memory;

/// Room for what a slot or a record writes behind its gate, with a body of so many bytes, in place of what the buffer
/// holds. No buffer has room for 2^63 bytes.
pub fn reserve_range(buffer: &mut Vec<u8>, length: u64) -> Result<(), Memory>
    ensures { OnOk result (range_size + length ≤ vec_capacity buffer.new) }
{
    buffer.clear();
    buffer.reserve((length as usize).saturating_add(17))?;
    Ok(())
}
