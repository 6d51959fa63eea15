ghost use Rattle.std.specs.Prelude.{◌≡◌, ◌<◌, ◌≤◌, length, Some, None, Ok, IfOk, IsErrOf, option_map};
ghost use Rattle.ficus_ids.specs.Kind.{sort_of};
ghost use Rattle.ficus_ids.specs.declared.kind.Sort.TheVariants.{Versioned};
ghost use Rattle.ficus_resolve.specs.Resolver.{IsResolution, IsTooLong};

use crate::ResolveFault;
use crate::keep::kept;
use crate::lines::union_of_lines;
use crate::max::greatest;
use ficus_ids::{Kind, Listed, Memory};
use std::alloc::Global;

/// The most bytes that a content has.
pub const CONTENT_LIMIT: usize = 16_384;

/// The content that the resolver of the kind makes of the set of these contents, as resolvers by file type did in Ficus
/// (Reiher and others 1994). `Declined` comes exactly where the resolver declines, and `TooLong` exactly where its
/// result has more than 16,384 bytes.
pub fn resolve(alloc: Global, kind: Kind, contents: &[Listed<u8>]) -> Result<Vec<u8>, ResolveFault>
    requires file { sort_of kind ≡ Versioned }
    requires one { 0 < length contents.now }
    ensures text { IfOk result (λ text. IsResolution kind contents.now (Some text.items)) }
    ensures fits { IfOk result (λ text. length text.items ≤ 16384) }
    ensures declined { IsErrOf result ResolveFault.Declined → IsResolution kind contents.now None }
    ensures too_long { IsErrOf result ResolveFault.TooLong → IsTooLong kind contents.now }
{
    let text = resolution(alloc, kind, contents)?.ok_or(ResolveFault::Declined)?;
    if text.len() > CONTENT_LIMIT {
        return Err(ResolveFault::TooLong);
    }
    Ok(text)
}

// What the resolver of the kind makes of the contents, or `None` where it declines.
fn resolution(alloc: Global, kind: Kind, contents: &[Listed<u8>]) -> Result<Option<Vec<u8>>, Memory>
    requires file { sort_of kind ≡ Versioned }
    requires one { 0 < length contents.now }
    ensures { IfOk result (λ outcome. IsResolution kind contents.now (option_map (λ text. text.items) outcome)) }
{
    match kind {
        Kind::Dir | Kind::Plain | Kind::Symlink => Ok(None),
        Kind::Lines => Ok(Some(union_of_lines(alloc, contents)?)),
        Kind::Max => greatest(alloc, contents),
        Kind::Keep => Ok(Some(kept(alloc, contents)?)),
    }
}
