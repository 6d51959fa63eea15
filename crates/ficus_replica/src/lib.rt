//! Each command as a pure function of one replica's state, and what the record of an event makes of it.
#![tactic(auto)]

mod accept;
mod apply;
mod ask;
mod calls;
mod collect;
mod commands;
mod effect;
mod fits;
mod laws;
mod replica;

pub use collect::Collected;
pub use laws::{
    alike_stands, changes_stand, looks_stand, one_collection, one_garbage, one_replica, one_saved,
    records_fit, records_stand,
};
pub use replica::{Asked, Next, Replica};
