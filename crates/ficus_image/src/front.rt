ghost use Rattle.std.specs.Prelude.{◌≡◌, ◌++◌, IfErr, IfNone, IfSome, OnErr, OnOk};
ghost use Rattle.ficus_formats.specs.Format.{Keeps, Reads};
ghost use Rattle.ficus_image.specs.Image.{magic, magic_bytes, member_count, front, front_of};
ghost use Rattle.ficus_image.specs.declared.image_version.ImageVersion.{ImageVersion as Version};
ghost use Rattle.ficus_image.specs.declared.image_version.ImageVersion.TheVariants.{Second};

use crate::ImageVersion;
use ficus_durable_state::Saved;
use ficus_formats::{ReadFault, Reader, put_bytes, put_u8, put_u32, put_u64};
use ficus_ids::{Members, Memory};

/// What stands in front of the tables.
#[derive(Clone, Copy)]
pub(crate) struct Front {
    pub(crate) version: ImageVersion,
    pub(crate) me: u8,
    pub(crate) members: Members,
    pub(crate) ids: u32,
    pub(crate) bytes: u32,
    pub(crate) next: u32,
    pub(crate) used: u32,
    pub(crate) generation: u64,
}

// The version of the images that begin with these bytes, or `None` exactly where there is none.
fn version_of(front: &[u8]) -> Option<ImageVersion>
    ensures found { IfSome result (λ version. front.now ≡ magic_bytes version) }
    ensures none { IfNone result ((version : Version) → front.now ≡ magic_bytes version → ⊥) }
{
    if front == b"FIC1".as_slice() {
        Some(ImageVersion::First)
    } else if front == b"FIC2".as_slice() {
        Some(ImageVersion::Second)
    } else {
        None
    }
}

// The version, by the bytes with which an image of it begins.
fn read_magic(reader: &mut Reader<'_>) -> Result<ImageVersion, ReadFault>
    ensures reads { Reads magic reader.old result reader.new }
    ensures unspelled { IfErr result (λ fault. fault ≡ ReadFault.Unspelled) }
{
    match reader.front(4) {
        Some(front) => version_of(front).ok_or(ReadFault::Unspelled),
        None => Err(ReadFault::Unspelled),
    }
}

// How many members there are.
fn read_member_count(reader: &mut Reader<'_>) -> Result<Members, ReadFault>
    ensures reads { Reads member_count reader.old result reader.new }
    ensures unspelled { IfErr result (λ fault. fault ≡ ReadFault.Unspelled) }
{
    let count = reader.byte()?;
    Members::new(count).ok_or(ReadFault::Unspelled)
}

/// Reads what stands in front of the tables.
pub(crate) fn read_front(reader: &mut Reader<'_>) -> Result<Front, ReadFault>
    ensures reads { Reads front reader.old result reader.new }
    ensures unspelled { IfErr result (λ fault. fault ≡ ReadFault.Unspelled) }
{
    Ok(Front {
        version: read_magic(reader)?,
        me: reader.byte()?,
        members: read_member_count(reader)?,
        ids: reader.number32()?,
        bytes: reader.number32()?,
        next: reader.number32()?,
        used: reader.number32()?,
        generation: reader.number64()?,
    })
}

/// Appends what stands in front of the tables, in the version that is written.
pub(crate) fn put_front(out: &mut Vec<u8>, saved: &Saved) -> Result<(), Memory>
    ensures put { OnOk result (out.new.items ≡ out.old.items ++ front.spell (front_of Second saved.now)) }
    ensures kept { OnErr result (Keeps out.old.items out.new.items) }
{
    put_bytes(out, b"FIC2")?;
    put_u8(out, saved.me)?;
    put_u8(out, saved.members.count())?;
    put_u32(out, saved.ids)?;
    put_u32(out, saved.bytes)?;
    put_u32(out, saved.next)?;
    put_u32(out, saved.used)?;
    put_u64(out, saved.generation)?;
    Ok(())
}
