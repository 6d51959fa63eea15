//! The program as one call: it reads the words and the script, makes or opens the volume, and answers each command.
#![tactic(auto)]

mod checking;
mod fault;
mod fresh;
mod fresh_lines;
pub mod graft;
mod joining;
mod laws;
mod making;
mod mode_laws;
mod program;
mod read;
mod running;
mod serving;
mod status;
pub mod summary;
mod telling;
mod words;

pub use fault::{Fault, ReadingFault};
pub use laws::{
    all_but_the_last_are_put, empty_disks_are_at_rest, fronts_go_on, idle_codes, killed_runs_go_on,
    mode_codes, next_run_goes_on, only_stops_arm_disks, read_codes, same_script_same_answers,
    unrisen_counts_are_no_failures,
};
pub use mode_laws::{
    checks_judge_each_replica, nothing_removed_returns, runs_leave_trails,
    volumes_are_made_or_in_part, what_is_pending_may_come,
};
pub use program::ficus;
pub use read::read_bytes;
pub use serving::serve;
pub use status::{Status, status_text};
pub use words::root_of;
