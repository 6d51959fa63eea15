ghost use Rattle.std.specs.Prelude.{◌≡◌, ◌+◌, ◌^◌, ◌≤◌, length};
ghost use Rattle.std.specs.List.{range_with_len};
ghost use Rattle.ficus_runs.specs.Exchange.{mails_of};
ghost use Rattle.ficus_wire.specs.Message.{piece_limit};

use ficus_script::Answer;

/// So many messages, from a number on.
#[derive(Clone, Copy)]
pub(crate) struct Mails {
    pub(crate) first: u32,
    pub(crate) count: u32,
}

/// The messages that an answer tells of.
pub(crate) fn mails_in(given: &Answer) -> Mails
    requires { length (mails_of given.now) ≤ piece_limit }
    ensures are { range_with_len result.first result.count ≡ mails_of given.now }
    ensures few { result.count ≤ piece_limit }
    ensures within { result.first + result.count ≤ 2 ^ 32 }
{
    match given {
        Answer::Mail(number) => Mails {
            first: *number,
            count: 1,
        },
        Answer::Mails(first, last) if first <= last => Mails {
            first: *first,
            count: last - first + 1,
        },
        _ => Mails { first: 0, count: 0 },
    }
}
