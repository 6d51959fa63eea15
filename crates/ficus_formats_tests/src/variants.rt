// Bytes that differ little from some that are written out.
use ficus_ids::Memory;
use std::alloc::Global;

/// A byte that is changed, at a place from 0.
#[derive(Clone, Copy)]
pub struct OtherByte {
    pub place: usize,
    pub byte: u8,
}

/// The bytes with one of them changed.
pub fn changed(alloc: Global, bytes: &[u8], change: OtherByte) -> Result<Vec<u8>, Memory> {
    let mut changed = bytes.to_vec(alloc)?;
    if let Some(byte) = changed.get_mut(change.place) {
        *byte = change.byte;
    }
    Ok(changed)
}

/// What a reader is compared with.
pub trait Grammar {
    /// Whether the bytes are read exactly where the grammar has them, and what is read is spelled by them.
    fn reads_exactly(&self, alloc: Global, bytes: &[u8]) -> Result<bool, Memory>;
}

// Whether that is so of all that differ from the bytes in the one at the place.
fn reads_changes<G: Grammar>(
    grammar: &G,
    alloc: Global,
    bytes: &[u8],
    place: usize,
) -> Result<bool, Memory> {
    for byte in 0..=u8::MAX {
        let changed = changed(alloc, bytes, OtherByte { place, byte })?;
        if !grammar.reads_exactly(alloc, &changed)? {
            return Ok(false);
        }
    }
    Ok(true)
}

/// Whether that is so of the bytes, of each front of them, and of all that differ from them in one byte.
pub fn reads_variants<G: Grammar>(
    grammar: &G,
    alloc: Global,
    bytes: &[u8],
) -> Result<bool, Memory> {
    for place in 0..bytes.len() {
        if !grammar.reads_exactly(alloc, &bytes[..place])?
            || !reads_changes(grammar, alloc, bytes, place)?
        {
            return Ok(false);
        }
    }
    grammar.reads_exactly(alloc, bytes)
}
