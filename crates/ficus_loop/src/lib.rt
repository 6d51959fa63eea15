//! Commands that are answered one after the other over a world and its disks: their answers are put to a sink, or
//! counted. A sweep is some of them: after a known amount of work all members know the same, and nothing that is
//! removed is held. And what a kill at any moment of them leaves of the disks.
#![tactic(auto)]

mod answering;
mod command;
mod explaining;
mod fault;
mod laws;
mod put;
mod sweep_fault;
mod sweep_report;
mod sweep_steps;
mod sweeps;
mod tally;

pub use answering::{answer_all, put_answer};
pub use fault::AnsweringFault;
pub use laws::{
    each_moment_is_of_one_command, killed_at_any_moment, killed_disks_keep_one_history,
    left_disks_keep_one_history, one_model, pending_events_go_on, steps_leave_trails,
};
pub use put::put_all;
pub use sweep_fault::SweepFault;
pub use sweep_report::SweepReport;
pub use sweeps::sweep;
pub use tally::{Tally, count_all};
