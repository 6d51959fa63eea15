//! What one replica saves, and how it is spelled.
#![tactic(auto)]

mod decoding;
mod encoding;
mod front;
mod image_fault;
mod image_version;

pub use decoding::{decode_image, one_image};
pub use encoding::{encode_image, put_image};
pub use image_fault::ImageFault;
pub use image_version::ImageVersion;
