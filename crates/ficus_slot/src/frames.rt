// What a keeper puts around what is saved.
ghost use Rattle.std.specs.Prelude.{◌≡◌, ◌+◌, ◌≤◌, [], ◌∷◌, ◌++◌, drop, length, vec_capacity};
ghost use Rattle.ficus_disk.specs.Bytes.{patch};
ghost use Rattle.ficus_keeper.specs.Framed.{IsFramed, body_in};
ghost use Rattle.ficus_slot.specs.Slot.{spelled};

/// Puts a generation and the bytes of a length at the end of a frame's head, from this place on, and a closed gate
/// behind the body. Takes no memory.
pub fn fill_frame(framed: &mut Vec<u8>, at: usize, generation: u64, size: &[u8])
    requires framed { IsFramed framed.old }
    requires place { at + 8 + length size.now ≡ 16 }
    ensures range { drop at framed.new.items
        ≡ spelled generation ++ size.now ++ body_in framed.old.items ++ 0 ∷ [] }
    ensures room { vec_capacity framed.old ≤ vec_capacity framed.new }
{
    put_over(framed, at, &generation.to_be_bytes());
    put_over(framed, at + 8, size);
    put_gate(framed);
}

// Puts a closed gate behind what is there.
fn put_gate(to: &mut Vec<u8>)
    requires { 1 + length to.old.items ≤ vec_capacity to.old }
    ensures items { to.new.items ≡ to.old.items ++ 0 ∷ [] }
    ensures room { vec_capacity to.old ≤ vec_capacity to.new }
{
    let _gate = to.extend_from_slice(&[0]);
}

// Writes over so many of the bytes that are there.
fn put_over(to: &mut Vec<u8>, at: usize, bytes: &[u8])
    requires { at + length bytes.now ≤ length to.old.items }
    ensures items { to.new.items ≡ patch to.old.items at bytes.now }
    ensures room { vec_capacity to.old ≤ vec_capacity to.new }
{
    to[at..at + bytes.len()].copy_from_slice(bytes);
}
