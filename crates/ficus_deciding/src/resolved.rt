ghost use Rattle.std.specs.Prelude.{◌≡◌, map, IfOk};
ghost use Rattle.ficus_ids.specs.Kind.{sort_of};
ghost use Rattle.ficus_ids.specs.declared.kind.Sort.TheVariants.{Versioned};
ghost use Rattle.ficus_durable_state.specs.Saved.{FitsImage};
ghost use Rattle.ficus_rules.specs.Rule.{UnlessMemoryFirst};
ghost use Rattle.ficus_deciding.specs.Files.{IsFileIn, ResolvedWithin};
ghost use Rattle.ficus_deciding.specs.View.{tables_view};

use ficus_durable_state::Saved;
use ficus_file::{FileReplica, Version};
use ficus_ids::{Listed, Memory, Refusal};
use ficus_resolve::ResolveFault;
use std::alloc::Global;

/// What the resolver of the file's kind makes of its contents. `TooLong` where that is more than a file may have.
pub(crate) fn resolved(
    alloc: Global,
    saved: &Saved,
    file: &FileReplica,
) -> Result<Listed<u8>, Refusal>
    requires fits { FitsImage saved.now }
    requires file { IsFileIn saved.now file.now }
    requires versioned { sort_of file.now.kind ≡ Versioned }
    ensures { UnlessMemoryFirst (ResolvedWithin (tables_view saved.now) file.now.id) result }
{
    let contents = contents_of(alloc, file.versions.items())?;
    match ficus_resolve::resolve(alloc, file.kind, &contents) {
        Ok(text) => Ok(Listed::of(text)),
        Err(ResolveFault::Declined) => Err(Refusal::Declined),
        Err(ResolveFault::TooLong) => Err(Refusal::TooLong),
        Err(ResolveFault::Memory) => Err(Refusal::Memory),
    }
}

// The contents of the versions, in their order.
fn contents_of(alloc: Global, versions: &[Version]) -> Result<Vec<Listed<u8>>, Memory>
    ensures { IfOk result (λ contents. contents.items ≡ map (λ version. version.bytes) versions.now) }
{
    let mut contents = Vec::with_capacity(alloc, versions.len())?;
    for version in versions {
        contents.push(Listed::of(version.bytes.items().to_vec(alloc)?))?;
    }
    Ok(contents)
}
