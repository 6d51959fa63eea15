ghost use Rattle.std.specs.Prelude.{◌≡◌, List, ℕ, Option};
ghost use Rattle.ficus_note.specs.Noted.{FitsNote, note_bytes};
ghost use Rattle.ficus_note.specs.declared.asked.Asked.{Asked as AskedValue};

/// An ask that waits for its answer.
#[derive(Clone, Copy, PartialEq, Eq)]
pub struct Asked {
    /// The replica that was asked, from 1 to 8.
    pub to: u8,
    /// The generation with which the ask was saved.
    pub number: u64,
}

/// How many bytes a note has.
pub(crate) const NOTE_SIZE: usize = 9;

/// The one spelling of the note: who was asked in one byte and the number in eight, or nine zeros for no ask.
pub(crate) fn spelled(noted: Option<Asked>) -> [u8; NOTE_SIZE]
    ensures { result ≡ note_bytes noted }
{
    let (to, number) = match noted {
        Some(asked) => (asked.to, asked.number),
        None => (0, 0),
    };
    let [a, b, c, d, e, f, g, h] = number.to_be_bytes();
    [to, a, b, c, d, e, f, g, h]
}

/// The law that no bytes are the spelling of two notes. It does nothing when it runs.
pub fn one_note()
    ensures { (a b : Option AskedValue) → FitsNote a → FitsNote b → note_bytes a ≡ note_bytes b → a ≡ b }
{}
