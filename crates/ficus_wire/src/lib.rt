//! What replicas send to each other, and how it is spelled.
#![tactic(auto)]

mod decoding;
mod encoding;
mod message;
mod parts;
mod pieces;
mod wire_fault;

pub use decoding::{decode, one_message, read_letter};
pub use encoding::{encode, encode_ask, encode_piece};
pub use message::{Letter, Message, PIECE_LIMIT, PieceHead, Route};
pub use parts::Parts;
pub use pieces::{PIECE_SIZE, answer_size, piece_at, piece_count};
pub use wire_fault::WireFault;
