ghost use Rattle.std.specs.Prelude.{◌≡◌, ◌<◌, ◌++◌, ◌^◌, [], ◌∷◌, length, OnErr, OnOk};
ghost use Rattle.std.specs.Int.{w64, to_le_bytes};
ghost use Rattle.ficus_formats.specs.Format.{byte, number16, number32, number64, string, id, Keeps};

use ficus_ids::{Id, Memory};

/// Appends bytes as they are.
pub fn put_bytes(out: &mut Vec<u8>, bytes: &[u8]) -> Result<(), Memory>
    ensures put { OnOk result (out.new.items ≡ out.old.items ++ bytes.now) }
    ensures kept { OnErr result (Keeps out.old.items out.new.items) }
{
    out.extend_from_slice(bytes)?;
    Ok(())
}

/// Appends a byte.
pub fn put_u8(out: &mut Vec<u8>, value: u8) -> Result<(), Memory>
    ensures put { OnOk result (out.new.items ≡ out.old.items ++ byte.spell value) }
    ensures kept { OnErr result (Keeps out.old.items out.new.items) }
{
    out.push(value)?;
    Ok(())
}

/// Appends a number in two bytes, the high one first.
pub fn put_u16(out: &mut Vec<u8>, value: u16) -> Result<(), Memory>
    ensures put { OnOk result (out.new.items ≡ out.old.items ++ number16.spell value) }
    ensures kept { OnErr result (Keeps out.old.items out.new.items) }
{
    put_bytes(out, &value.to_be_bytes())
}

/// Appends a number in four bytes, the highest one first.
pub fn put_u32(out: &mut Vec<u8>, value: u32) -> Result<(), Memory>
    ensures put { OnOk result (out.new.items ≡ out.old.items ++ number32.spell value) }
    ensures kept { OnErr result (Keeps out.old.items out.new.items) }
{
    put_bytes(out, &value.to_be_bytes())
}

/// Appends a number in eight bytes, the highest one first.
pub fn put_u64(out: &mut Vec<u8>, value: u64) -> Result<(), Memory>
    ensures put { OnOk result (out.new.items ≡ out.old.items ++ number64.spell value) }
    ensures kept { OnErr result (Keeps out.old.items out.new.items) }
{
    put_bytes(out, &value.to_be_bytes())
}

/// Appends an identifier: the replica in one byte, the number in four.
pub fn put_id(out: &mut Vec<u8>, value: Id) -> Result<(), Memory>
    ensures put { OnOk result (out.new.items ≡ out.old.items ++ id.spell value) }
    ensures kept { OnErr result (Keeps out.old.items out.new.items) }
{
    let [first, second, third, fourth] = value.number.to_be_bytes();
    put_bytes(out, &[value.replica, first, second, third, fourth])
}

/// The number whose bytes, the low one first, are those of an identifier, of two more behind it, and a zero. They are
/// spelled where they are put, so that they go there at once.
#[inline(always)]
pub fn id_and(value: Id, first: u8, second: u8) -> u64
    ensures { to_le_bytes w64 result ≡ id.spell value ++ (first ∷ second ∷ 0 ∷ []) }
{
    // The high byte of the identifier's number stands first, so its bytes are swapped: at once, by the processor.
    let number = u64::from(value.number.swap_bytes()) * (1 << 8);
    let behind = u64::from(first) * (1 << 40) + u64::from(second) * (1 << 48);
    u64::from(value.replica) + number + behind
}

/// Appends bytes, fewer than 2^8, behind their length in one byte.
pub fn put_short_string(out: &mut Vec<u8>, bytes: &[u8]) -> Result<(), Memory>
    requires { length bytes.now < 2 ^ 8 }
    ensures put { OnOk result (out.new.items ≡ out.old.items ++ (string byte).spell bytes.now) }
    ensures kept { OnErr result (Keeps out.old.items out.new.items) }
{
    put_u8(out, bytes.len() as u8)?;
    put_bytes(out, bytes)
}

/// Appends bytes, fewer than 2^16, behind their length in two bytes.
pub fn put_long_string(out: &mut Vec<u8>, bytes: &[u8]) -> Result<(), Memory>
    requires { length bytes.now < 2 ^ 16 }
    ensures put { OnOk result (out.new.items ≡ out.old.items ++ (string number16).spell bytes.now) }
    ensures kept { OnErr result (Keeps out.old.items out.new.items) }
{
    put_u16(out, bytes.len() as u16)?;
    put_bytes(out, bytes)
}
