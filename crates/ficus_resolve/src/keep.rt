ghost use Rattle.std.specs.Prelude.{◌≡◌, ◌++◌, IfOk, OnOk};
ghost use Rattle.ficus_resolve.specs.Keep.{headline, kept_all, KeepsAll};
ghost use Rattle.ficus_resolve.specs.Texts.{ending, texts_of};

use crate::contents::distinct;
use ficus_ids::{Listed, Memory};
use std::alloc::Global;

/// The different contents in byte order, each under its headline.
pub(crate) fn kept(alloc: Global, contents: &[Listed<u8>]) -> Result<Vec<u8>, Memory>
    ensures { IfOk result (λ text. KeepsAll contents.now text.items) }
{
    let versions = distinct(alloc, contents)?;
    kept_in_order(alloc, &versions)
}

// The versions one after the other, each under its headline, and the last line.
fn kept_in_order(alloc: Global, versions: &[&[u8]]) -> Result<Vec<u8>, Memory>
    ensures { IfOk result (λ text. text.items ≡ kept_all (texts_of versions.now)) }
{
    let mut text = Vec::new(alloc);
    for (index, version) in versions.iter().enumerate() {
        text.extend_from_slice(&headline(alloc, versions.len(), index + 1)?)?;
        append_version(&mut text, version)?;
    }
    text.extend_from_slice(b"=== end\n")?;
    Ok(text)
}

// The line over the version of this number.
fn headline(alloc: Global, count: usize, number: usize) -> Result<Vec<u8>, Memory>
    ensures { IfOk result (λ line. line.items ≡ headline count number) }
{
    Ok(format!(in alloc; "=== version {number} of {count}\n")?.into_bytes())
}

fn append_version(text: &mut Vec<u8>, content: &[u8]) -> Result<(), Memory>
    ensures { OnOk result (text.new.items ≡ text.old.items ++ content.now ++ ending content.now) }
{
    text.extend_from_slice(content)?;
    text.extend_from_slice(ending(content))?;
    Ok(())
}

// Byte 10, where the content isn't empty and doesn't end with it.
fn ending(content: &[u8]) -> &'static [u8]
    ensures { result.now ≡ ending content.now }
{
    match content {
        [] | [.., b'\n'] => b"",
        _ => b"\n",
    }
}
