//! Records: how an event after which a replica saves is spelled, both ways. What a record makes of what was saved
//! stands in `ficus_replica`.
#![tactic(auto)]

mod decoding;
mod encoding;
mod fault;
mod fields;
mod record;

pub use decoding::{decode_record, one_record};
pub use encoding::{accepted_tables, encode_record, put_accept_front, put_change, put_record};
pub use fault::RecordFault;
pub use record::Record;
