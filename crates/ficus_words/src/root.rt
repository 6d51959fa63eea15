ghost use Rattle.std.specs.Prelude.{◌≡◌, ◌≢◌, ℕ, List, Some, None, [], IfOk, IsErrOf, option_map, string_bytes};
ghost use Rattle.ficus_words.specs.Given.{IsSomeText};

use crate::WordsFault;
use ficus_ids::Memory;
use std::alloc::Global;
use std::marker::Model;

/// The folder of a volume, as the words give it: a text that isn't empty.
#[derive(Drop)]
pub struct Root {
    text: String,
}

impl Model for Root {
    ghost Value = { List ℕ };

    ghost view = { λ root. string_bytes root.text };
}

impl Root {
    /// The text.
    pub fn text(&self) -> &str
        ensures { result.now ≡ self.now }
    {
        &self.text
    }
}

/// The folder that the text names. `Usage` comes exactly where there is no text or an empty one.
pub(crate) fn read_root(alloc: Global, text: Option<&str>) -> Result<Root, WordsFault>
    ensures root { IfOk result (IsSomeText (option_map (λ text. text.now) text.entry)) }
    ensures usage { IsErrOf result WordsFault.Usage
        → (root : List ℕ) → IsSomeText (option_map (λ text. text.now) text.entry) root → ⊥ }
{
    match text {
        Some(text) if !text.is_empty() => Ok(Root {
            text: copied(alloc, text)?,
        }),
        _ => Err(WordsFault::Usage),
    }
}

fn copied(alloc: Global, text: &str) -> Result<String, Memory>
    ensures { IfOk result (λ copy. string_bytes copy ≡ text.now) }
{
    Ok(String::from_str(alloc, text)?)
}
