ghost use Rattle.std.specs.Prelude.{IfOk, Contains};
ghost use Rattle.ficus_resolve.specs.Texts.{texts_of, IsInOrder};

use ficus_ids::{Listed, Memory};
use std::alloc::Global;

/// The contents in byte order, each of them once.
pub(crate) fn distinct(alloc: Global, contents: &[Listed<u8>]) -> Result<Vec<&[u8]>, Memory>
    ensures { IfOk result (λ texts. IsInOrder (Contains contents.now) (texts_of texts.items)) }
{
    let mut texts = Vec::with_capacity(alloc, contents.len())?;
    for content in contents {
        texts.push(content.items())?;
    }
    Ok(sorted(texts))
}

/// The texts in byte order, each of them once.
pub(crate) fn sorted(mut texts: Vec<&[u8]>) -> Vec<&[u8]>
    ensures { IsInOrder (Contains (texts_of texts.entry.items)) (texts_of result.items) }
{
    texts.sort_unstable();
    texts.dedup();
    texts
}
