ghost use Rattle.std.specs.Prelude.{◌≡◌, ◌≢◌, ◌∷◌, ◌++◌, ◌<◌, ◌≤◌, ℕ, [], length, All, Err, IfNone, IfOk, IfSome, MatchOption};
ghost use Rattle.ficus_script.specs.Script.{lines_of};
ghost use Rattle.ficus_member_script.specs.MemberLine.{IsFirstBadMemberLine, IsMemberScript, IsOwnLine};

use crate::MemberLine;
use crate::draft::Draft;
use ficus_script::ScriptFault;
use std::alloc::Global;

/// What the lines of the script of a member on a machine of its own ask for, in order. `BadLine` comes exactly where a
/// line is neither passed over nor one of those, and names the first such line. `Memory` comes only where there is
/// none, and memory was refused.
pub fn read_member_script(alloc: Global, bytes: &[u8]) -> Result<Vec<MemberLine>, ScriptFault>
    ensures script { IfOk result (λ lines. IsMemberScript bytes.now lines.items) }
    ensures each { IfOk result (λ lines. All IsOwnLine lines.items) }
    ensures count { IfOk result (λ lines. length lines.items ≤ length bytes.now) }
    ensures bad_line { (line : ℕ) → result ≡ Err (ScriptFault.BadLine line) → IsFirstBadMemberLine bytes.now line }
    ensures no_line { (line : ℕ) → IsFirstBadMemberLine bytes.now line → result ≡ Err (ScriptFault.BadLine line) }
{
    let mut draft = Draft::new(alloc);
    let mut number = 0;
    let mut rest = bytes;
    while let Some((line, others)) = first_line(rest) {
        number += 1;
        if !draft.take(alloc, line) {
            return Err(ScriptFault::BadLine(number));
        }
        rest = others;
    }
    if draft.refused {
        Err(ScriptFault::Memory)
    } else {
        Ok(draft.lines)
    }
}

// The first line, without the byte that ends it, and what stands behind that.
fn first_line(bytes: &[u8]) -> Option<(&[u8], &[u8])>
    ensures lines { IfSome result (λ cut. lines_of bytes.now ≡ cut.0.now ∷ lines_of cut.1.now) }
    ensures shorter { IfSome result (λ cut. length cut.1.now < length bytes.now) }
    ensures free { IfSome result (λ cut. All (λ byte. byte ≢ 10) cut.0.now) }
    ensures none { IfNone result (bytes.now ≡ []) }
{
    if bytes.is_empty() {
        return None;
    }
    let (line, rest) = cut_line(bytes);
    Some((line, rest.unwrap_or(&[])))
}

// The bytes before the first byte 10, and those behind it. Without one they are all of the bytes, and nothing.
fn cut_line(bytes: &[u8]) -> (&[u8], Option<&[u8]>)
    ensures front { All (λ byte. byte ≢ 10) result.0.now }
    ensures whole { MatchOption result.1 (bytes.now ≡ result.0.now)
        (λ rest. bytes.now ≡ result.0.now ++ 10 ∷ rest.now) }
{
    match bytes.iter().position(|&byte| byte == b'\n') {
        Some(end) => (&bytes[..end], Some(&bytes[end + 1..])),
        None => (bytes, None),
    }
}
