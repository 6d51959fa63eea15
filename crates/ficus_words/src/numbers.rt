ghost use Rattle.std.specs.Prelude.{◌≡◌, ℕ, Some, IfSome, IfNone, option_map};
ghost use Rattle.std.specs.Fmt.{decimal};
ghost use Rattle.ficus_ids.specs.Members.{IsCount};
ghost use Rattle.ficus_words.specs.Given.{IsNumber, IsNumberOrMost};

use ficus_ids::{Members, read_number};

/// The count of members that the text spells.
pub(crate) fn read_members(text: Option<&str>) -> Option<Members>
    ensures found { IfSome result (IsNumber 2 8 (option_map (λ text. text.now) text.entry)) }
    ensures none { IfNone result ((number : ℕ) → IsNumber 2 8 (option_map (λ text. text.now) text.entry) number → ⊥) }
{
    let count = number_in(text, 2, 8)?;
    Members::new(count as u8)
}

/// The number of a member among so many, which the text spells.
pub(crate) fn read_replica(text: Option<&str>, count: u8) -> Option<u8>
    ensures found { IfSome result (IsNumber 1 count (option_map (λ text. text.now) text.entry)) }
    ensures none { IfNone result
        ((number : ℕ) → IsNumber 1 count (option_map (λ text. text.now) text.entry) number → ⊥) }
{
    let number = number_in(text, 1, count as u32)?;
    Some(number as u8)
}

/// The number from the least to the most that the text spells.
pub(crate) fn number_in(text: Option<&str>, least: u32, most: u32) -> Option<u32>
    ensures found { IfSome result (IsNumber least most (option_map (λ text. text.now) text.entry)) }
    ensures none { IfNone result
        ((number : ℕ) → IsNumber least most (option_map (λ text. text.now) text.entry) number → ⊥) }
{
    let number = read_number(text?.as_bytes())?;
    if least <= number && number <= most {
        Some(number)
    } else {
        None
    }
}

/// The number from the least to the most that the text spells, or the most where there is no text.
pub(crate) fn number_or_most(text: Option<&str>, least: u32, most: u32) -> Option<u32>
    ensures found { IfSome result (IsNumberOrMost least most (option_map (λ text. text.now) text.entry)) }
    ensures none { IfNone result
        ((number : ℕ) → IsNumberOrMost least most (option_map (λ text. text.now) text.entry) number → ⊥) }
{
    if text.is_none() {
        Some(most)
    } else {
        number_in(text, least, most)
    }
}
