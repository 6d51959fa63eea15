// How answers are written.
use ficus_ids::{Memory, Refusal};
use ficus_member_script::{MemberAnswer, member_answer_text};
use ficus_script::Answer;
use std::alloc::Global;

// Whether the answer is written so.
fn is_written(alloc: Global, answer: MemberAnswer, text: &[u8]) -> Result<bool, Memory> {
    Ok(member_answer_text(alloc, &answer)?.as_slice() == text)
}

#[test]
fn answers_are_written(rt: HostRuntime) {
    let refused = MemberAnswer::Plain(Answer::Refused(Refusal::Missing));
    let served = MemberAnswer::Served {
        pieces: 3,
        state: 18_446_744_073_709_551_615,
    };
    assert!(rt; is_written(rt.alloc(), MemberAnswer::Plain(Answer::Done), b"ok\n") == Ok(true));
    assert!(rt; is_written(rt.alloc(), refused, b"no missing\n") == Ok(true));
    assert!(rt; is_written(rt.alloc(), MemberAnswer::Asked(7), b"ok 7\n") == Ok(true));
    assert!(rt; is_written(rt.alloc(), served, b"ok 3 18446744073709551615\n") == Ok(true));
}
