use ficus_ids::Listed;

/// The most pieces that an answer has.
pub const PIECE_LIMIT: u32 = 262_144;

/// What one replica sends to another.
#[derive(Drop)]
pub enum Message {
    /// Replica `from` asks replica `to` for its state. The number is the generation with which the ask was saved.
    Ask {
        from: u8,
        to: u8,
        number: u64,
    },
    /// A piece of what replica `from` held when it served the ask of replica `to` with this number: its generation was
    /// `state` then, and its tables have so many pieces, of which this is the one with the index, from 0.
    Piece {
        from: u8,
        to: u8,
        number: u64,
        state: u64,
        pieces: u32,
        index: u32,
        bytes: Listed<u8>,
    },
}

/// From whom to whom a message goes, and the number of its ask.
#[derive(Clone, Copy)]
pub struct Route {
    pub from: u8,
    pub to: u8,
    pub number: u64,
}

/// What stands in front of the bytes of a piece: the generation of who served it, how many pieces there are, and which
/// of them it is, from 0.
#[derive(Clone, Copy)]
pub struct PieceHead {
    pub route: Route,
    pub state: u64,
    pub pieces: u32,
    pub index: u32,
}

/// A message as it is read. The bytes of a piece are lent by those that were read.
#[derive(Clone, Copy)]
pub enum Letter<'a> {
    /// As [`Message::Ask`].
    Ask(Route),
    /// As [`Message::Piece`].
    Piece(PieceHead, &'a [u8]),
}
