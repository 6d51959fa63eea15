ghost use Rattle.std.specs.Prelude.{◌≡◌, ◌++◌, IfOk, OnOk};
ghost use Rattle.ficus_path.specs.Spelling.{path_text, start_text};

use crate::part::append_part;
use crate::path::{Base, Part, Path};
use ficus_ids::Memory;
use std::alloc::Global;

/// The one spelling of the path. More than 32 parts, and an identifier that no replica issues, are written too, but
/// `read_path` refuses them.
pub fn write_path(alloc: Global, path: &Path) -> Result<Vec<u8>, Memory>
    ensures { IfOk result (λ text. text.items ≡ path_text path.now) }
{
    let mut text = Vec::new(alloc);
    let parts = path.parts.items();
    append_start(alloc, &mut text, path.base, parts)?;
    for part in parts {
        append_part(alloc, &mut text, part)?;
    }
    Ok(text)
}

// Writes what stands before the parts at the end.
fn append_start(alloc: Global, out: &mut Vec<u8>, base: Base, parts: &[Part]) -> Result<(), Memory>
    ensures { OnOk result (out.new.items ≡ out.old.items ++ start_text base parts.now) }
{
    match base {
        Base::Root if parts.is_empty() => out.push(b'/')?,
        Base::Root => {}
        Base::Orphan(id) => out.extend_from_slice(format!(in alloc; "~{id}")?.as_bytes())?,
    }
    Ok(())
}
