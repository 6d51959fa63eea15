ghost use Rattle.std.specs.Prelude.{◌≡◌, ◌≢◌, List, IfOk, IsErrOf, map, string_bytes};
ghost use Rattle.clap.specs.Words.{kind_of};
ghost use Rattle.ficus_words.specs.Grammar.{Use, Gives};
ghost use Rattle.ficus_words.specs.Given.{given_texts, texts_of};

use crate::WordsFault;
use crate::matches::matches_in;
use clap::Error;
use clap::error::ErrorKind;
use std::alloc::Global;

/// The text that the words give each name, where they give one.
#[derive(Clone, Copy)]
pub(crate) struct Given<'a> {
    pub(crate) mode: Option<&'a str>,
    pub(crate) root: Option<&'a str>,
    pub(crate) members: Option<&'a str>,
    pub(crate) ids: Option<&'a str>,
    pub(crate) bytes: Option<&'a str>,
    pub(crate) seed: Option<&'a str>,
    pub(crate) steps: Option<&'a str>,
    pub(crate) volumes: Option<&'a str>,
    pub(crate) replica: Option<&'a str>,
    pub(crate) tag: Option<&'a str>,
}

/// What the words give, the program's name first. `Usage` comes exactly where they are none of the grammar.
pub(crate) fn read_given<'a>(alloc: Global, words: &'a [String]) -> Result<Given<'a>, WordsFault>
    ensures given { IfOk result (λ given. (uses : List Use)
        × Gives (map string_bytes words.entry.now) uses × (given_texts given ≡ texts_of uses)) }
    ensures usage { IsErrOf result WordsFault.Usage
        → (uses : List Use) → Gives (map string_bytes words.entry.now) uses → ⊥ }
{
    match matches_in(alloc, words) {
        Ok(found) => Ok(Given {
            mode: found.get_str("mode"),
            root: found.get_str("root"),
            members: found.get_str("members"),
            ids: found.get_str("ids"),
            bytes: found.get_str("bytes"),
            seed: found.get_str("seed"),
            steps: found.get_str("steps"),
            volumes: found.get_str("volumes"),
            replica: found.get_str("replica"),
            tag: found.get_str("tag"),
        }),
        Err(error) => Err(fault_of(&error)),
    }
}

// Why a parse failed.
fn fault_of(error: &Error) -> WordsFault
    ensures usage { result ≡ WordsFault.Usage → kind_of error.now ≢ ErrorKind.OutOfMemory }
    ensures memory { result ≡ WordsFault.Memory → kind_of error.now ≡ ErrorKind.OutOfMemory }
{
    if error.kind() == ErrorKind::OutOfMemory {
        WordsFault::Memory
    } else {
        WordsFault::Usage
    }
}
