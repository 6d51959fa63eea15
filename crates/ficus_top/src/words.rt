ghost use Rattle.std.specs.Prelude.{◌≡◌, ◌≢◌, ℕ, List, None, IfNone, IfOk, IfSome, IsErr, option_map, string_bytes};
ghost use Rattle.ficus_top.specs.Words.{NameRoot, root_in, texts};

use ficus_ids::Memory;
use ficus_words::{Mode, WordsFault, read_words};
use std::alloc::Global;

/// Where the volume lies, or is to lie, that the words name: ROOT of `init`, `run` and `check`. `None` exactly where
/// they name none.
pub fn root_of(alloc: Global, words: &Vec<String>) -> Result<Option<String>, Memory>
    ensures found { IfOk result (λ root. IfSome root (λ root. NameRoot (texts words.now.items) (string_bytes root))) }
    ensures none { IfOk result (λ root. IfNone root ((place : List ℕ) → NameRoot (texts words.now.items) place → ⊥)) }
{
    match read_words(alloc, words.as_slice()) {
        Ok(mode) => root_in(alloc, &mode),
        Err(WordsFault::Usage) => Ok(None),
        Err(WordsFault::Memory) => Err(Memory),
    }
}

// Where the volume of the mode lies, or is to lie.
fn root_in(alloc: Global, mode: &Mode) -> Result<Option<String>, Memory>
    ensures found { IfOk result (λ root. option_map string_bytes root ≡ root_in mode.now) }

    // Memory is wanted for a place alone.
    ensures memory { IsErr result → root_in mode.now ≢ None }
{
    match mode {
        Mode::Init { root, .. } | Mode::Run { root } | Mode::Check { root } => {
            Ok(Some(String::from_str(alloc, root.text())?))
        }
        Mode::Replay { .. } | Mode::Volumes { .. } | Mode::Gen { .. } => Ok(None),
    }
}
