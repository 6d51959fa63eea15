//! The laws of versions: what vectors and covers tell, and which versions are shown after each event.
//!
//! A law is the contract of a function with an empty body. Its lemmas stand in `proofs/`, for the proofs of
//! the crates above.
#![tactic(auto)]

mod accepts;
mod covers;
mod orphans;
mod vectors;
mod versions;
mod views;

pub use accepts::{accept_joins_covers, accept_joins_versions};
pub use covers::{covers_follow_updates, covers_tell_pasts};
pub use orphans::{conflicts_differ_in_bytes, links_stay, orphans_have_uncovered_versions};
pub use vectors::{vectors_stay, vectors_tell_pasts};
pub use versions::{
    files_have_lists, files_have_versions, one_version_of_each, update_replaces_versions,
};
pub use views::{others_keep_views, views_stay};
