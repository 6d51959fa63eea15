ghost use Rattle.std.specs.Prelude.{◌≡◌, ◌++◌, IfSome, IfNone, OnOk};
ghost use Rattle.ficus_path.specs.declared.path.Part.{Part};
ghost use Rattle.ficus_path.specs.Path.{IsPart};
ghost use Rattle.ficus_path.specs.Spelling.{component_text, part_text};

use crate::cut::cut_before;
use crate::id::read_id;
use crate::name::{append_name, read_name};
use crate::path::Part;
use ficus_ids::Memory;
use std::alloc::Global;

/// The part that the text spells, without the slash before it, or `None` exactly where it spells none.
pub fn read_component(text: &[u8]) -> Option<Part>
    ensures part { IfSome result IsPart }
    ensures found { IfSome result (λ part. text.now ≡ component_text part) }
    ensures none { IfNone result ((part : Part) → IsPart part → text.now ≡ component_text part → ⊥) }
{
    let (name, suffix) = cut_before(text, b'#');
    let name = read_name(name)?;
    let target = match suffix {
        [] => None,
        [_, id @ ..] => Some(read_id(id)?),
    };
    Some(Part { name, target })
}

/// Writes the part at the end, with the slash before it.
pub fn append_part(alloc: Global, out: &mut Vec<u8>, part: &Part) -> Result<(), Memory>
    ensures { OnOk result (out.new.items ≡ out.old.items ++ part_text part.now) }
{
    out.push(b'/')?;
    append_name(out, &part.name)?;
    if let Some(id) = part.target {
        let suffix = format!(in alloc; "#{id}")?;
        out.extend_from_slice(suffix.as_bytes())?;
    }
    Ok(())
}
