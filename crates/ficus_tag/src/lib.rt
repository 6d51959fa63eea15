//! The tags of volumes, which tell their messages apart.
#![tactic(auto)]

mod tag;

pub use tag::{TAG_SIZE, TAG_TEXT_SIZE, Tag, one_tag};
