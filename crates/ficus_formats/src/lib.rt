//! Formats of bytes that are exact both ways, how values are read by them and written.
#![tactic(auto)]

mod fault;
mod laws;
mod pieces;
mod reader;
mod rising;
mod spelling;
mod taking;
mod window;
mod writing;

pub use fault::ReadFault;
pub use laws::{one_number, one_reading};
pub use pieces::{pieces_have_sizes, pieces_join};
pub use reader::Reader;
pub use rising::{RowSpelling, read_rising};
pub use spelling::{Spelling, WindowSpelling, put_run, read_run};
pub use taking::{take_id, take_u8, take_u16, take_u32, take_u64};
pub use window::Window;
pub use writing::{
    id_and, put_bytes, put_id, put_long_string, put_short_string, put_u8, put_u16, put_u32, put_u64,
};
