//! Directory entries: a list by identifier, in which a removed entry stays, marked as removed.
#![tactic(auto)]

mod entries;
mod entry;
mod in_order;
mod inside;
mod kill_laws;
mod killing;
mod laws;
mod naming;
mod note;
mod replacing;
mod row;
mod run;
mod scan;
mod spelling;

pub use entries::Entries;
pub use entry::{Entry, State};
pub use in_order::InOrder;
pub use inside::Leading;
pub use kill_laws::only_its_own;
pub use laws::{one_entry, same_entries};
pub use row::SharedEntry;
pub use run::{EntriesRun, Run};
