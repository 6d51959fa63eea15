// The numbers and words of refusals, of which scripts show some words.
use ficus_ids::Refusal;
use std::test::Fail;

const REFUSALS: &[(Refusal, u8, &str)] = &[
    (Refusal::Memory, 0, "memory"),
    (Refusal::NoEntry, 1, "noentry"),
    (Refusal::NotDir, 2, "notdir"),
    (Refusal::IsDir, 3, "isdir"),
    (Refusal::Exists, 4, "exists"),
    (Refusal::Ambiguous, 5, "ambiguous"),
    (Refusal::NotEmpty, 6, "notempty"),
    (Refusal::IntoSelf, 7, "intoself"),
    (Refusal::Conflict, 8, "conflict"),
    (Refusal::NoConflict, 9, "noconflict"),
    (Refusal::Declined, 10, "declined"),
    (Refusal::TooLong, 11, "toolong"),
    (Refusal::NotOrphan, 12, "notorphan"),
    (Refusal::Spent, 13, "spent"),
    (Refusal::Quota, 14, "quota"),
    (Refusal::Stale, 15, "stale"),
    (Refusal::Down, 16, "down"),
    (Refusal::NoMail, 17, "nomail"),
    (Refusal::LinkFull, 18, "linkfull"),
    (Refusal::Store, 19, "store"),
    (Refusal::NoFuse, 20, "nofuse"),
    (Refusal::BadMessage, 21, "badmessage"),
    (Refusal::Member, 22, "member"),
    (Refusal::Link, 23, "link"),
    (Refusal::Image, 24, "image"),
    (Refusal::Mixed, 25, "mixed"),
    (Refusal::IsLink, 26, "islink"),
    (Refusal::NotLink, 27, "notlink"),
    (Refusal::Crossing, 28, "crossing"),
    (Refusal::Missing, 29, "missing"),
];

#[test]
fn refusals_have_their_numbers_and_words(rt: HostRuntime) -> Result<(), Fail> {
    for &(refusal, number, word) in REFUSALS {
        assert_eq!(rt; refusal.number(), number);
        assert_eq!(rt; refusal.word(), word);
    }
    Ok(())
}
