//! A slot on one disk: how it is read, and how it is saved so that a crash leaves the old one, none or the new one.
#![tactic(auto)]

mod frames;
mod laws;
mod range;
mod reading;
mod room;
mod saving;

pub use frames::fill_frame;
pub use laws::one_slot;
pub use range::save_range;
pub use reading::{Slot, is_shut, read_all, read_number, read_slot};
pub use room::reserve_range;
pub use saving::save_slot;
