//! The merge of two replicas' directory entries: the merge table, entry by entry.
#![tactic(auto)]

mod laws;
mod merge;
mod pairs;
mod replacement;
mod runs;
mod table;

pub use laws::one_merge;
pub use merge::{all_new, merge_entries, replacements};
pub use pairs::{PairWalk, Pairs};
pub use runs::merge_runs;
