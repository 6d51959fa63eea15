ghost use Rattle.std.specs.Prelude.{◌≡◌, IfOk};
ghost use Rattle.ficus_member_script.specs.MemberAnswer.{member_answer_text_of, served_text_of};

use ficus_ids::Memory;
use ficus_script::{Answer, answer_text};
use std::alloc::Global;

/// What a line of the script of a member on a machine of its own came to.
#[derive(Drop)]
pub enum MemberAnswer {
    /// What a command came to, as in any script; also that a line was refused.
    Plain(Answer),
    /// The ask has this number, and its message was put.
    Asked(u64),
    /// An ask was answered, by so many pieces of the state of this number.
    Served { pieces: u32, state: u64 },
}

/// The text of the answer. Each of its lines ends with byte 10.
pub fn member_answer_text(alloc: Global, answer: &MemberAnswer) -> Result<Vec<u8>, Memory>
    ensures { IfOk result (λ text. text.items ≡ member_answer_text_of answer.now) }
{
    match answer {
        MemberAnswer::Plain(answer) => answer_text(alloc, answer),
        MemberAnswer::Asked(number) => Ok(format!(in alloc; "ok {number}\n")?.into_bytes()),
        MemberAnswer::Served { pieces, state } => served_text(alloc, *pieces, *state),
    }
}

fn served_text(alloc: Global, pieces: u32, state: u64) -> Result<Vec<u8>, Memory>
    ensures { IfOk result (λ text. text.items ≡ served_text_of pieces state) }
{
    Ok(format!(in alloc; "ok {pieces} {state}\n")?.into_bytes())
}
