//! Messages as files carry them: behind the tag of their volume, and under their names.
#![tactic(auto)]

mod envelope;
mod unseal_fault;

pub use envelope::{name_of, seal, seal_spelled, sealed_messages_fit, unseal};
pub use unseal_fault::UnsealFault;
