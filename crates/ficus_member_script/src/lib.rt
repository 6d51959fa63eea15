//! The script of a member that is on a machine of its own: what its lines ask for, and how answers are written.
#![tactic(auto)]

mod draft;
mod laws;
mod line;
mod member_answer;
mod member_line;
mod script;

pub use laws::one_member_script;
pub use member_answer::{MemberAnswer, member_answer_text};
pub use member_line::MemberLine;
pub use script::read_member_script;
