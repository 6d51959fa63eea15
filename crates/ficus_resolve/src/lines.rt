ghost use Rattle.std.specs.Prelude.{◌≡◌, [], ◌∷◌, ◌++◌, IfOk, IfSome, IfNone};
ghost use Rattle.std.specs.List.{flat_map};
ghost use Rattle.ficus_resolve.specs.Lines.{line_text, AreLines, IsLineAmong, IsUnionOfLines};
ghost use Rattle.ficus_resolve.specs.Texts.{ending, texts_of, IsInOrder};

use crate::contents::sorted;
use ficus_ids::{Listed, Memory};
use std::alloc::Global;

/// The lines of all contents in byte order, each once and followed by byte 10.
pub(crate) fn union_of_lines(alloc: Global, contents: &[Listed<u8>]) -> Result<Vec<u8>, Memory>
    ensures { IfOk result (λ text. IsUnionOfLines contents.now text.items) }
{
    let lines = lines_among(alloc, contents)?;
    ended(alloc, &lines)
}

// The lines of all contents in byte order, each once.
fn lines_among(alloc: Global, contents: &[Listed<u8>]) -> Result<Vec<&[u8]>, Memory>
    ensures { IfOk result (λ lines. IsInOrder (IsLineAmong contents.now) (texts_of lines.items)) }
{
    let mut lines = Vec::new(alloc);
    for content in contents {
        lines.extend_from_slice(&lines_of(alloc, content.items())?)?;
    }
    Ok(sorted(lines))
}

// The lines of the content, in order.
fn lines_of(alloc: Global, content: &[u8]) -> Result<Vec<&[u8]>, Memory>
    ensures { IfOk result (λ lines. AreLines content.now (texts_of lines.items)) }
{
    match without_ending(content) {
        Some(body) => Ok(body.split(|byte| *byte == b'\n').collect(alloc)?),
        None => Ok(Vec::new(alloc)),
    }
}

// The content without a byte 10 at its end, or `None` where it is empty.
fn without_ending(content: &[u8]) -> Option<&[u8]>
    ensures some { IfSome result (λ body. content.now ++ ending content.now ≡ body.now ++ 10 ∷ []) }
    ensures none { IfNone result (content.now ≡ []) }
{
    match content.split_last()? {
        (b'\n', body) => Some(body),
        _ => Some(content),
    }
}

// The lines one after the other, each followed by byte 10.
fn ended(alloc: Global, lines: &[&[u8]]) -> Result<Vec<u8>, Memory>
    ensures { IfOk result (λ text. text.items ≡ flat_map line_text (texts_of lines.now)) }
{
    let mut text = Vec::new(alloc);
    for line in lines {
        text.extend_from_slice(line)?;
        text.push(b'\n')?;
    }
    Ok(text)
}
