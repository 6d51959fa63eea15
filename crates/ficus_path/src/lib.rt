//! Paths, and how names, paths and texts are spelled.
#![tactic(auto)]

mod byte;
mod cut;
mod draft;
mod id;
mod name;
mod part;
mod path;
mod reading;
mod room;
mod text;
mod text_draft;
mod writing;

pub use byte::{append_byte, read_byte};
pub use draft::PathDraft;
pub use id::read_id;
pub use name::{one_name, write_name};
pub use path::{Base, PART_LIMIT, Part, Path, PathFault};
pub use reading::{one_path, read_path};
pub use text::{TextFault, append_text, one_text, read_text};
pub use text_draft::TextDraft;
pub use writing::write_path;
