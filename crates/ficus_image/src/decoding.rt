ghost use Rattle.std.specs.Prelude.{◌≡◌, ◌≢◌, ◌↔◌, List, ℕ, ◌++◌, Contains, IsErr, IsTrue, IfOk, IsErrOf, Ok, false, true};
ghost use Rattle.ficus_codec.specs.Formats.{tables};
ghost use Rattle.ficus_formats.specs.Format.{ReadsAll};
ghost use Rattle.ficus_ids.specs.Members.{IsMember};
ghost use Rattle.ficus_ids.specs.declared.kind.Kind.TheVariants.{Symlink};
ghost use Rattle.ficus_file.specs.declared.file.FileReplica.{FileReplica as FileValue};
ghost use Rattle.ficus_durable_state.specs.Saved.{FitsImage, HasOwnPast};
ghost use Rattle.ficus_durable_state.specs.Tables.{FitsTables};
ghost use Rattle.ficus_durable_state.specs.declared.saved.Saved.{Saved as SavedValue};
ghost use Rattle.ficus_image.specs.Image.{BeginsFront, FitsSpelled, HasVersion, IsImageOf, image, image_parts, version_bytes};
ghost use Rattle.ficus_image.specs.declared.image_version.ImageVersion.{ImageVersion as Version};

use crate::front::read_front;
use crate::{ImageFault, ImageVersion};
use ficus_codec::{Known, read_all_rows, tables_of};
use ficus_durable_state::{BYTE_LIMIT, Saved, UPDATE_LIMIT};
use ficus_entry::Entries;
use ficus_file::{Files, FilesInOrder};
use ficus_formats::{ReadFault, Reader};
use ficus_ids::{Kind, Members, Memory};
use std::alloc::Global;

/// What bytes spell, and in which version.
#[derive(Drop)]
pub(crate) struct Spelled {
    pub(crate) version: ImageVersion,
    pub(crate) saved: Saved,
}

// The tables that the bytes spell which are left, from the first to the last.
fn read_all_tables(
    alloc: Global,
    reader: Reader<'_>,
    members: Members,
) -> Result<(Entries, Files), ReadFault>
    ensures { ReadsAll (tables members) reader.entry result }
{
    let (entries, files) = read_all_rows(alloc, reader, &Known::none(members))?;
    let tables = tables_of(alloc, entries.items(), files.items())?;
    Ok(tables)
}

// What stands in front of the tables, and the tables to the end.
fn read_parts(alloc: Global, reader: Reader<'_>) -> Result<Spelled, ReadFault>
    ensures reads { ReadsAll image_parts reader.entry result }
    ensures memory { IsErrOf result ReadFault.Memory → BeginsFront reader.entry }
{
    let mut rest = reader;
    let front = read_front(&mut rest)?;
    let (entries, files) = read_all_tables(alloc, rest, front.members)?;
    Ok(Spelled {
        version: front.version,
        saved: Saved {
            me: front.me,
            members: front.members,
            ids: front.ids,
            bytes: front.bytes,
            next: front.next,
            used: front.used,
            generation: front.generation,
            entries,
            files,
        },
    })
}

// Whether the limits are those of a volume, and what the replica has used up lies within them.
fn is_within_limits(saved: &Saved) -> bool
    requires me { IsMember saved.now.members saved.now.me }
    requires tables { FitsTables saved.now.members saved.now.entries saved.now.files }
    ensures fits { IsTrue result → HasOwnPast saved.now.me saved.now.next saved.now.entries saved.now.files →
        FitsImage saved.now }
    ensures within { FitsImage saved.now → IsTrue result }
{
    let _ = saved.members.count();
    (1..=UPDATE_LIMIT).contains(&saved.ids)
        && saved.bytes <= BYTE_LIMIT
        && (1..=saved.ids + 1).contains(&saved.next)
        && saved.used <= saved.bytes
        && saved.generation < 1 << 63
}

// Whether the tables hold nothing of the replica's own that it hasn't made.
fn has_own_past(saved: &Saved) -> Result<bool, Memory>
    requires { IsMember saved.now.members saved.now.me }
    ensures { IfOk result (λ past. IsTrue past
        ↔ HasOwnPast saved.now.me saved.now.next saved.now.entries saved.now.files) }
{
    let entries = saved.entries.in_order()?;
    if !saved.has_issued_entries(&entries) {
        return Ok(false);
    }
    let files = saved.files.in_order()?;
    Ok(saved.has_issued_files(&files))
}

// Whether what is saved, with tables that may be, may stand in an image.
fn fits_image(saved: &Saved) -> Result<bool, Memory>
    requires { FitsTables saved.now.members saved.now.entries saved.now.files }
    ensures { IfOk result (λ fits. IsTrue fits ↔ FitsImage saved.now) }
{
    if !saved.members.has(saved.me) || !is_within_limits(saved) {
        return Ok(false);
    }
    let past = has_own_past(saved)?;
    Ok(past)
}

// Whether none of the files is a symbolic link.
fn are_no_links(files: &FilesInOrder<'_>) -> bool
    ensures { IsTrue result ↔ ((file : FileValue) → Contains files.now file → file.kind ≢ Symlink) }
{
    for index in 0..files.len() {
        if files.at(index).kind == Kind::Symlink {
            return false;
        }
    }
    true
}

// Whether the version spells what is saved.
fn has_version(version: ImageVersion, saved: &Saved) -> Result<bool, Memory>
    ensures { IfOk result (λ has. IsTrue has ↔ HasVersion version saved.now) }
{
    match version {
        ImageVersion::First => {
            let files = saved.files.in_order()?;
            Ok(are_no_links(&files))
        }
        ImageVersion::Second => Ok(true),
    }
}

// Whether what was spelled, with tables that may be, may stand in an image of its version.
fn fits_spelled(spelled: &Spelled) -> Result<bool, Memory>
    requires { FitsTables spelled.now.saved.members spelled.now.saved.entries spelled.now.saved.files }
    ensures { IfOk result (λ fits. IsTrue fits ↔ FitsSpelled spelled.now) }
{
    if !fits_image(&spelled.saved)? {
        return Ok(false);
    }
    has_version(spelled.version, &spelled.saved)
}

// What the bytes spell that are left.
fn read_image(alloc: Global, reader: Reader<'_>) -> Result<Spelled, ReadFault>
    ensures reads { ReadsAll image reader.entry result }
    ensures memory { IsErrOf result ReadFault.Memory → BeginsFront reader.entry }
{
    let spelled = read_parts(alloc, reader)?;
    let fits = fits_spelled(&spelled);
    where_it_fits(spelled, fits)
}

// What was spelled, where it was found that it may stand in an image. Want of memory is told exactly where it kept that
// from being found.
fn where_it_fits(spelled: Spelled, fits: Result<bool, Memory>) -> Result<Spelled, ReadFault>
    ensures read { IfOk result (λ read. (read ≡ spelled) × (fits ≡ Ok true)) }
    ensures unspelled { IsErrOf result ReadFault.Unspelled ↔ fits ≡ Ok false }
    ensures memory { IsErrOf result ReadFault.Memory ↔ IsErr fits }
{
    match fits {
        Ok(true) => Ok(spelled),
        Ok(false) => Err(ReadFault::Unspelled),
        Err(Memory) => Err(ReadFault::Memory),
    }
}

/// What the bytes spell, from the first to the last, as an image of either version. `NotImage` comes exactly where they
/// spell nothing that a replica may save; `Memory` only where there stands what every image has in front of its tables.
pub fn decode_image(alloc: Global, bytes: &[u8]) -> Result<Saved, ImageFault>
    ensures fits { IfOk result (λ saved. FitsImage saved) }
    ensures spelled { IfOk result (λ saved. IsImageOf bytes.now saved) }
    ensures one { (saved : SavedValue) → IsImageOf bytes.now saved → IfOk result (λ read. read ≡ saved) }
    ensures not_image { IsErrOf result ImageFault.NotImage → (saved : SavedValue) → IsImageOf bytes.now saved → ⊥ }
    ensures memory { IsErrOf result ImageFault.Memory → BeginsFront bytes.now }
{
    let spelled = read_image(alloc, Reader::new(bytes))?;
    Ok(spelled.saved)
}

/// The law that nothing has the spelling of something else, in whichever versions, and that no spelling begins another.
/// It does nothing when it runs.
pub fn one_image()
    ensures { (m n : SavedValue) (v w : Version) (a b : List ℕ) → FitsImage m → FitsImage n
        → version_bytes v m ++ a ≡ version_bytes w n ++ b → (v ≡ w) × (m ≡ n) × (a ≡ b) }
{}
