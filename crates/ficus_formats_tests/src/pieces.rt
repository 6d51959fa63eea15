// Bytes that are cut into pieces, and joined again in any order.
use ficus_ids::Memory;
use ficus_wire::{Parts, answer_size, piece_at, piece_count};
use std::alloc::Global;
use std::test::Fail;

/// So many bytes have so many pieces, which come in this order.
#[derive(Drop)]
struct Cut {
    length: usize,
    pieces: u32,
    order: &'static [u32],
}

const CUTS: [Cut; 9] = [
    Cut {
        length: 0,
        pieces: 0,
        order: &[],
    },
    Cut {
        length: 1,
        pieces: 1,
        order: &[0],
    },
    Cut {
        length: 4_096,
        pieces: 1,
        order: &[0],
    },
    Cut {
        length: 4_097,
        pieces: 2,
        order: &[1, 0],
    },
    Cut {
        length: 8_191,
        pieces: 2,
        order: &[0, 1],
    },
    Cut {
        length: 8_192,
        pieces: 2,
        order: &[1, 0],
    },
    Cut {
        length: 8_193,
        pieces: 3,
        order: &[2, 0, 1],
    },
    Cut {
        length: 12_288,
        pieces: 3,
        order: &[1, 2, 0],
    },
    Cut {
        length: 20_000,
        pieces: 5,
        order: &[3, 1, 4, 0, 2],
    },
];

// So many bytes, of which each piece differs from the others.
fn text(alloc: Global, length: usize) -> Result<Vec<u8>, Memory> {
    let mut text = vec![in alloc; 0u8; length]?;
    for (place, byte) in text.iter_mut().enumerate() {
        *byte = (place % 251) as u8;
    }
    Ok(text)
}

// The piece with the index, or nothing where there is none.
fn piece_of(bytes: &[u8], index: u32) -> &[u8] {
    if (index as usize) < piece_count(bytes) {
        piece_at(bytes, index)
    } else {
        &[]
    }
}

// Whether the parts with the piece are the bytes exactly where it is the last that was missing.
fn comes_to(
    alloc: Global,
    parts: &Parts,
    bytes: &[u8],
    index: u32,
    is_last: bool,
) -> Result<bool, Memory> {
    if is_last {
        let mut whole = Vec::new(alloc);
        parts.put_whole_with(&mut whole, index, piece_of(bytes, index))?;
        Ok(whole.as_slice() == bytes)
    } else {
        Ok(parts.whole()?.is_none())
    }
}

// Whether the piece is one more, and completes the bytes where it is the last.
fn takes(
    alloc: Global,
    parts: &mut Parts,
    bytes: &[u8],
    index: u32,
    is_last: bool,
) -> Result<bool, Memory> {
    if parts.has(index) || index >= parts.pieces() {
        return Ok(false);
    }
    let is_alone = parts.lacks_only(index) == is_last;
    let comes = comes_to(alloc, parts, bytes, index, is_last)?;
    let held = parts.len();
    parts.add(index, piece_of(bytes, index).to_vec(alloc)?)?;
    Ok(is_alone && comes && parts.has(index) && parts.len() == held.saturating_add(1))
}

// Whether the bytes are cut as the row says, and the pieces are joined to them in its order.
fn joins(alloc: Global, row: &Cut) -> Result<bool, Memory> {
    let bytes = text(alloc, row.length)?;
    if piece_count(&bytes) != row.pieces as usize {
        return Ok(false);
    }
    let mut parts = Parts::new(alloc, 7, row.pieces);
    for (place, index) in row.order.iter().enumerate() {
        let is_last = place == row.order.len() - 1;
        if !takes(alloc, &mut parts, &bytes, *index, is_last)? {
            return Ok(false);
        }
    }
    let is_whole = match parts.whole()? {
        Some(whole) => whole.as_slice() == bytes.as_slice(),
        None => false,
    };
    Ok(is_whole && parts.state() == 7)
}

#[test]
fn pieces_are_joined_in_any_order(rt: HostRuntime) -> Result<(), Fail> {
    for (index, row) in CUTS.iter().enumerate() {
        let is = joins(rt.alloc(), row)?;
        assert!(rt; is, "row {index}");
    }
    Ok(())
}

#[test]
fn an_answer_has_a_head_for_each_piece(rt: HostRuntime) -> Result<(), Fail> {
    for (length, size) in [(1, 29), (4_096, 4_124), (4_097, 4_153), (20_000, 20_140)] {
        let bytes = text(rt.alloc(), length)?;
        assert!(rt; answer_size(&bytes) == size);
    }
    Ok(())
}
