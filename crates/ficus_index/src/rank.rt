ghost use Rattle.std.specs.Prelude.{◌≡◌, ◌<◌};
ghost use Rattle.ficus_index.specs.Digest.{digest_of};

use ficus_ids::Name;

// Where the digest starts, and by what it is multiplied at each byte: the numbers that Fowler, Noll and Vo chose for
// 32 bits (FNV, 1991), without the highest bit, so that names which differ little have digests which differ much. A sum
// stands in place of their exclusive or.
const DIGEST_START: u32 = 18_652_613;

const DIGEST_FACTOR: u64 = 16_777_619;

/// Above all digests, which have 31 bits.
pub const DIGEST_END: u32 = 1 << 31;

/// A number of 31 bits for a name. Other names may have the same.
pub fn digest(name: &Name) -> u32
    ensures value { result ≡ digest_of name.now }
    ensures small { result < DIGEST_END }
{
    let mut digest = DIGEST_START;
    for byte in name.bytes() {
        let mixed = u64::from(digest) * DIGEST_FACTOR + u64::from(*byte);
        digest = (mixed % u64::from(DIGEST_END)) as u32;
    }
    digest
}
