// Records of what replica 1 of two does, spelled as docs/FORMATS.md says.
use std::alloc::{AllocError, Global};

/// A directory `a` in the root.
pub(crate) const MAKE: &[u8] = b"\x01\0\0\0\0\0\x01a\0";

/// One in the directory 1.1.
pub(crate) const INSIDE: &[u8] = b"\x01\x01\0\0\0\x01\x01a\0";

/// A symbolic link `l` in the root, with the text `a`.
pub(crate) const LINK: &[u8] = b"\x0d\0\0\0\0\0\x01l\0\x01a";

/// The directory 1.1 given up.
pub(crate) const DISCARD: &[u8] = b"\x09\x01\0\0\0\x01";

/// An ask.
pub(crate) const ASK: &[u8] = b"\x0a";

/// What replica 2 answers, which has made a directory `t`.
const ACCEPT: &[u8] =
    b"\x0b\0\0\0\x01\x02\0\0\0\x01\0\0\0\0\0\x01t\x02\0\0\0\x01\0\0\0\0\x01\x02\0\0\0\x01\0\0\0\0\0\0\0\0\0\0";

/// A collection.
pub(crate) const COLLECT: &[u8] = b"\x0c";

/// Each operation that a replica does by itself, an ask, the taking of what the other holds, and collections.
pub(crate) const DAY: &[&[u8]] = &[
    // The directory 1.1, `d`, and in it the file 1.2, `f`, which is written, linked as `g` and moved to `h`.
    b"\x01\0\0\0\0\0\x01d\0",
    b"\x01\x01\0\0\0\x01\x01f\x01",
    b"\x05\x01\0\0\0\x02\0\x03one",
    b"\x02\0\0\0\0\0\x01g\x01\0\0\0\x02",
    b"\x04\x01\0\0\0\x02\0\0\0\0\0\x01h\0\0\0\x01\x01\0\0\0\x02",
    // `g` is removed.
    b"\x03\x01\0\0\0\x02\0\0\0\x01\x01\0\0\0\x04",
    ASK,
    ACCEPT,
    COLLECT,
    // A file 1.7, whose resolver is `max`.
    b"\x01\0\0\0\0\0\x01m\x03",
    ASK,
    ACCEPT,
    // What the other has made is removed.
    b"\x03\x02\0\0\0\x01\0\0\0\x01\x02\0\0\0\x01",
    COLLECT,
    b"\x05\x01\0\0\0\x02\0\0",
];

/// So many changes: of four of them one makes a directory, one a file, one writes it, and one removes the directory.
pub(crate) fn changes(alloc: Global, count: u8) -> Result<Vec<Vec<u8>>, AllocError> {
    let mut bodies = Vec::new(alloc);
    for number in 0..count {
        bodies.push(change(alloc, number)?)?;
    }
    Ok(bodies)
}

// The change behind so many others.
fn change(alloc: Global, number: u8) -> Result<Vec<u8>, AllocError> {
    let name = b'0' + number / 4;
    let made = number.saturating_sub(2);
    match number % 4 {
        0 => Vec::from_slice(alloc, &[1, 0, 0, 0, 0, 0, 2, b'd', name, 0]),
        1 => Vec::from_slice(alloc, &[1, 0, 0, 0, 0, 0, 2, b'f', name, 1]),
        2 => Vec::from_slice(alloc, &[5, 1, 0, 0, 0, number, 0, 2, b't', name]),
        _ => Vec::from_slice(alloc, &[3, 1, 0, 0, 0, made, 0, 0, 0, 1, 1, 0, 0, 0, made]),
    }
}

/// Copies of these.
pub(crate) fn copies(alloc: Global, bodies: &[&[u8]]) -> Result<Vec<Vec<u8>>, AllocError> {
    let mut copies = Vec::new(alloc);
    for body in bodies {
        copies.push(Vec::from_slice(alloc, body)?)?;
    }
    Ok(copies)
}
