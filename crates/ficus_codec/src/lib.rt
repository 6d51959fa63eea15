//! Which bytes are tables, both ways. What a replica saves, and what tables have to meet, stands in
//! `ficus_durable_state`.
#![tactic(auto)]

mod entry_format;
mod file_format;
mod known;
mod tables;
mod take_fault;

pub use entry_format::read_name;
pub use file_format::read_kind;
pub use known::Known;
pub use tables::{
    one_tables, put_rows, put_tables, read_all_rows, read_rows, read_tables, tables_of, take_tables,
};
pub use take_fault::TakeFault;
