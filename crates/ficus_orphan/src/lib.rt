//! Which objects are orphans: those without a live name that are kept all the same.
#![tactic(auto)]

mod id_set;
mod laws;
mod naming;
mod orphan;

pub use id_set::IdSet;
pub use laws::one_list_of_orphans;
pub use naming::named;
pub use orphan::{is_kept, is_orphan, orphans};
