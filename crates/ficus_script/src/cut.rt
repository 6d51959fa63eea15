ghost use Rattle.std.specs.Prelude.{◌≡◌, ◌≢◌, ◌∷◌, ◌++◌, All, MatchOption};

/// The bytes before the first `separator`, and those behind it. Without one they are all of the bytes, and nothing.
pub(crate) fn cut_at(bytes: &[u8], separator: u8) -> (&[u8], Option<&[u8]>)
    ensures front { All (λ byte. byte ≢ separator) result.0.now }
    ensures whole { MatchOption result.1 (bytes.now ≡ result.0.now)
        (λ rest. bytes.now ≡ result.0.now ++ separator ∷ rest.now) }
{
    match bytes.iter().position(|&byte| byte == separator) {
        Some(end) => (&bytes[..end], Some(&bytes[end + 1..])),
        None => (bytes, None),
    }
}
