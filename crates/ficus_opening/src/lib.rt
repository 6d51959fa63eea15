//! The disks of a volume's members before a world stands on them: a fresh volume is made on them, what those of one
//! replica hold is judged, and those of each member are opened.
#![tactic(auto)]

mod alone;
pub mod check;
mod checking;
mod fault;
mod looking;
mod making;
mod member;
mod opening;

pub use alone::open_alone;
pub use checking::{check_disks, checks_tell_of_openings};
pub use fault::WorldFault;
pub use looking::look_at;
pub use making::{make_volume, what_is_made_stands};
pub use member::{Member, MemberState, Pending};
pub use opening::{Opened, open_all};
