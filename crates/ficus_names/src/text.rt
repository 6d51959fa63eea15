ghost use Rattle.std.specs.Prelude.{◌≡◌, IfOk};
ghost use Rattle.ficus_names.specs.Text.{shown_text_of};

use crate::ShownName;
use ficus_ids::Memory;
use ficus_path::write_name;
use std::alloc::Global;

/// The shown name as it is written: the name, followed by `#r.k` of the object where it is suffixed.
pub fn shown_text(alloc: Global, item: &ShownName) -> Result<Vec<u8>, Memory>
    ensures { IfOk result (λ text. text.items ≡ shown_text_of item.now) }
{
    let mut text = write_name(alloc, &item.name)?;
    if item.suffixed {
        let target = item.target;
        let suffix = format!(in alloc; "#{target}")?;
        text.extend_from_slice(suffix.as_bytes())?;
    }
    Ok(text)
}
