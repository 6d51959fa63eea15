//! Members on machines of their own: what a machine may do alone, and the laws that whatever each of these machines
//! does, together they are one world.
//!
//! A law is the contract of a function that does nothing. Its lemmas stand in `proofs/`.

mod acting;
mod laws;
mod opening;

pub use acting::{act, take};
pub use laws::{
    killed_disks_are_found, killed_processes_go_on, machines_are_lawful, machines_stay_one_world,
    nothing_returns_anywhere, one_message_of_a_name, opened_are_one_world, processes_join,
    runs_join,
};
