//! What the disks of one replica are judged to be, by what is said of this replica alone; how much it holds; and how
//! that is told.

mod checked;
mod holding;
mod laws;
mod lines;
mod own;

pub use checked::{Checked, soundness_of};
pub use holding::{Holding, holding_of};
pub use laws::one_judgement;
pub use lines::checked_text;
pub use own::{is_of_volume, open_own};
