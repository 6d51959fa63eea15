// Frames: what is saved, with room around it for what a keeper puts there.
ghost use Rattle.std.specs.Prelude.{◌≡◌, ◌+◌, ◌^◌, ◌<◌, ◌≤◌, OnErr, OnOk, length, max, vec_capacity};
ghost use Rattle.ficus_keeper.specs.Framed.{IsFramed, body_in, empty_head, head_size};

use ficus_ids::Memory;

/// So many bytes of a frame stand in front of what is saved: room for the head that a keeper puts there.
pub const HEAD_SIZE: usize = 16;

/// How many bytes a frame holds to be saved.
pub fn body_size(framed: &[u8]) -> u64
    requires { head_size ≤ length framed.now }
    ensures size { result ≡ length (body_in framed.now) }
    ensures small { result < 2 ^ 63 }
{
    (framed.len() - HEAD_SIZE) as u64
}

/// Begins a frame, in place of what the buffer holds: what is appended is what is saved. After `Memory` the buffer
/// holds what it held.
pub fn begin_frame(buffer: &mut Vec<u8>) -> Result<(), Memory>
    ensures begun { OnOk result (buffer.new.items ≡ empty_head) }
    ensures kept { OnErr result (buffer.new.items ≡ buffer.old.items) }
{
    hold_head(buffer)?;
    buffer.clear();
    buffer.extend_from_slice(&[0; HEAD_SIZE])?;
    Ok(())
}

// Takes the room of a head, where the buffer has less.
fn hold_head(buffer: &mut Vec<u8>) -> Result<(), Memory>
    ensures same { buffer.new.items ≡ buffer.old.items }
    ensures room { OnOk result (head_size ≤ vec_capacity buffer.new) }
{
    if buffer.capacity() < HEAD_SIZE {
        buffer.reserve(HEAD_SIZE)?;
    }
    Ok(())
}

/// Takes the room behind what is saved. Where it isn't there, one byte more is taken and nothing else, since an image
/// may be large.
pub fn end_frame(framed: &mut Vec<u8>) -> Result<(), Memory>
    ensures same { framed.new.items ≡ framed.old.items }
    ensures room { OnOk result (1 + length framed.new.items ≤ vec_capacity framed.new) }
    ensures no_more { OnOk result (vec_capacity framed.new
        ≡ max (vec_capacity framed.old) (1 + length framed.old.items)) }
{
    framed.reserve_exact(1)?;
    Ok(())
}

/// Makes a frame of these bytes, in place of what the buffer holds. Takes no memory.
pub fn frame(buffer: &mut Vec<u8>, bytes: &[u8])
    requires { head_size + length bytes.now + 1 ≤ vec_capacity buffer.old }
    ensures framed { IsFramed buffer.new }
    ensures body { body_in buffer.new.items ≡ bytes.now }
    ensures room { vec_capacity buffer.old ≤ vec_capacity buffer.new }
{
    buffer.clear();
    let _head = buffer.extend_from_slice(&[0; HEAD_SIZE]);
    let _body = buffer.extend_from_slice(bytes);
}
