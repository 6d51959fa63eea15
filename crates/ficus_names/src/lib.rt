//! Names of a directory: how its objects are shown, which object a part of a path means, and which names lead to
//! several.
#![tactic(auto)]

mod binding;
mod clash;
mod directories;
mod listing;
mod meaning;
mod once;
mod text;

pub use clash::{Clashes, NameClash, name_clashes, same_names};
pub use directories::Directories;
pub use listing::{Line, ShownName, same_listing, shown};
pub use meaning::{find, same_answer};
pub use text::shown_text;
