ghost use Rattle.std.specs.Prelude.{◌≡◌, ◌++◌, IfOk, OnErr, OnOk};
ghost use Rattle.ficus_formats.specs.Format.{Keeps};
ghost use Rattle.ficus_durable_state.specs.Saved.{FitsImage};
ghost use Rattle.ficus_image.specs.Image.{image_bytes};

use crate::front::put_front;
use ficus_codec::put_tables;
use ficus_durable_state::Saved;
use ficus_ids::Memory;
use std::alloc::Global;

/// Appends the one spelling of what is saved, in one pass over the tables. After `Memory` part of it may stand there.
pub fn put_image(out: &mut Vec<u8>, saved: &Saved) -> Result<(), Memory>
    requires { FitsImage saved.now }
    ensures put { OnOk result (out.new.items ≡ out.old.items ++ image_bytes saved.now) }
    ensures kept { OnErr result (Keeps out.old.items out.new.items) }
{
    put_front(out, saved)?;
    put_tables(out, &saved.entries, &saved.files, saved.members)
}

/// The one spelling of what is saved.
pub fn encode_image(alloc: Global, saved: &Saved) -> Result<Vec<u8>, Memory>
    requires { FitsImage saved.now }
    ensures { IfOk result (λ bytes. bytes.items ≡ image_bytes saved.now) }
{
    let mut out = Vec::new(alloc);
    put_image(&mut out, saved)?;
    Ok(out)
}
