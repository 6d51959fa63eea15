ghost use Rattle.std.specs.Prelude.{◌≡◌, ◌<◌, ℕ};
ghost use Rattle.ficus_formats.specs.Pieces as pieces;
ghost use Rattle.ficus_wire.specs.Message.{messages_of_tables, sizes_of};

use crate::encoding::HEAD_SIZE;

/// The most bytes that a piece has.
pub const PIECE_SIZE: usize = 4_096;

/// How many pieces the bytes have: each is full but the last, which has some.
pub fn piece_count(bytes: &[u8]) -> usize
    ensures { result ≡ pieces.piece_count bytes.now }
{
    bytes.len().div_ceil(PIECE_SIZE)
}

/// The piece of the bytes with this index, from 0.
pub fn piece_at(bytes: &[u8], index: u32) -> &[u8]
    requires { index < pieces.piece_count bytes.now }
    ensures { result.now ≡ pieces.piece_at bytes.now index }
{
    let start = index as usize * PIECE_SIZE;
    let end = bytes.len().min(start + PIECE_SIZE);
    &bytes[start..end]
}

/// How many bytes the messages in which these bytes of tables go have in all.
pub fn answer_size(tables: &[u8]) -> u64
    ensures { (server asker number state : ℕ)
        → result ≡ sizes_of (messages_of_tables server asker number state tables.now) }
{
    tables.len() as u64 + (HEAD_SIZE * piece_count(tables)) as u64
}
