ghost use Rattle.std.specs.Prelude.{◌≡◌, ◌<◌, length, IfOk, IfSome, IfNone, option_map};
ghost use Rattle.std.specs.Str.Parse.{digits_value};
ghost use Rattle.ficus_resolve.specs.Max.{IsNumeral, HasNoNumeral, IsGreatest, IsMaximum};

use ficus_ids::{Listed, Memory};
use std::alloc::Global;

// The most digits that a number has.
const MOST_DIGITS: usize = 19;

/// The greatest number of the contents in shortest decimal form, or `None` where some content is no number.
pub(crate) fn greatest(alloc: Global, contents: &[Listed<u8>]) -> Result<Option<Vec<u8>>, Memory>
    requires { 0 < length contents.now }
    ensures { IfOk result (λ outcome. IsMaximum contents.now (option_map (λ text. text.items) outcome)) }
{
    match greatest_number(contents) {
        Some(number) => Ok(Some(format!(in alloc; "{number}")?.into_bytes())),
        None => Ok(None),
    }
}

fn greatest_number(contents: &[Listed<u8>]) -> Option<u64>
    requires { 0 < length contents.now }
    ensures some { IfSome result (IsGreatest contents.now) }
    ensures none { IfNone result (HasNoNumeral contents.now) }
{
    let mut greatest = 0;
    for content in contents {
        greatest = read_numeral(content.items())?.max(greatest);
    }
    Some(greatest)
}

// The number that the content spells in 1 to 19 decimal digits.
fn read_numeral(content: &[u8]) -> Option<u64>
    ensures some { IfSome result (λ number. number ≡ digits_value 10 content.now) }
    ensures numeral { IfSome result (λ _. IsNumeral content.now) }
    ensures none { IfNone result (IsNumeral content.now → ⊥) }
{
    // The parser of std takes a `+` too.
    if content.len() > MOST_DIGITS || content.first() == Some(&b'+') {
        return None;
    }
    match str::from_utf8(content) {
        Ok(text) => text.parse().ok(),
        Err(_) => None,
    }
}
