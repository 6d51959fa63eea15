ghost use Rattle.std.specs.Prelude.{◌≡◌, ◌+◌, ◌≤◌, ◌++◌, length};
ghost use Rattle.arrayvec.specs.ArrayString.{array_string_len};
ghost use Rattle.ficus_mailbox.specs.MessageName.{FitsName, dashed, name_text};
ghost use Rattle.ficus_mailbox.specs.declared.message_name.MessageName.{MessageName as MessageNameValue};

use arrayvec::ArrayString;
use itoa::Buffer;

/// The most bytes that the text of a name takes room for.
pub const NAME_TEXT_LIMIT: usize = 110;

/// The name of a message as a file: from whom to whom it goes, and what tells it from all others that go there. It is a
/// hint for who carries files; what a file is, its content says.
#[derive(Clone, Copy, PartialEq, Eq)]
pub enum MessageName {
    /// `ask-FROM-TO-NUMBER`: the ask of replica `from` with this number.
    Ask {
        from: u8,
        to: u8,
        number: u64,
    },
    /// `piece-FROM-TO-NUMBER-STATE-INDEX`: the piece with this index, from 0, of what replica `from` held at the
    /// generation `state`, for the ask of replica `to` with this number.
    Piece {
        from: u8,
        to: u8,
        number: u64,
        state: u64,
        index: u32,
    },
}

impl MessageName {
    /// The one spelling of the name. Takes no memory.
    pub fn text(&self) -> ArrayString<NAME_TEXT_LIMIT>
        ensures { result.bytes ≡ name_text self.now }
    {
        let mut text = ArrayString::new();
        match *self {
            MessageName::Ask { from, to, number } => {
                text.push_str("ask");
                push_route(&mut text, from, to, number);
            }
            MessageName::Piece {
                from,
                to,
                number,
                state,
                index,
            } => {
                text.push_str("piece");
                push_route(&mut text, from, to, number);
                push_number(&mut text, state);
                push_number(&mut text, u64::from(index));
            }
        }
        text
    }
}

// Appends two members and a number.
fn push_route(text: &mut ArrayString<NAME_TEXT_LIMIT>, from: u8, to: u8, number: u64)
    requires { array_string_len text.old + 63 ≤ NAME_TEXT_LIMIT }
    ensures text { text.new.bytes ≡ text.old.bytes ++ dashed from ++ dashed to ++ dashed number }
    ensures within { array_string_len text.new ≤ array_string_len text.old + 63 }
{
    push_number(text, u64::from(from));
    push_number(text, u64::from(to));
    push_number(text, number);
}

// Appends a number behind a dash.
fn push_number(text: &mut ArrayString<NAME_TEXT_LIMIT>, number: u64)
    requires { array_string_len text.old + 21 ≤ NAME_TEXT_LIMIT }
    ensures text { text.new.bytes ≡ text.old.bytes ++ dashed number }
    ensures within { array_string_len text.new ≤ array_string_len text.old + 21 }
{
    let mut digits = Buffer::new();
    text.push_str("-");
    text.push_str(digits.format(number));
}

/// The law that two names that are spelled alike are one. It does nothing when it runs.
pub fn one_message_name()
    ensures { (a b : MessageNameValue) → FitsName a → FitsName b → name_text a ≡ name_text b → a ≡ b }
{}
