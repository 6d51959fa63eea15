ghost use Rattle.std.specs.Prelude.{◌≡◌, ◌≢◌, ◌++◌, All};
ghost use Rattle.ficus_path.specs.Spelling.{IsEndOr};

/// The text up to the first `separator`, and the text from it on. Without one it is the whole text, and nothing.
pub fn cut_before(text: &[u8], separator: u8) -> (&[u8], &[u8])
    ensures whole { text.now ≡ result.0.now ++ result.1.now }
    ensures front { All (λ byte. byte ≢ separator) result.0.now }
    ensures rest { IsEndOr separator result.1.now }
{
    let end = text
        .iter()
        .position(|&byte| byte == separator)
        .unwrap_or(text.len());
    text.split_at(end)
}
