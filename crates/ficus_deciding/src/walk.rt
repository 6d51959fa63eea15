ghost use Rattle.std.specs.Prelude.{◌≡◌, ◌↔◌, IsTrue, IfOk, Some, None};
ghost use Rattle.std.specs.List.{last_or};
ghost use Rattle.ficus_ids.specs.Kind.{sort_of};
ghost use Rattle.ficus_ids.specs.declared.kind.Sort.TheVariants.{Versioned, Fixed};
ghost use Rattle.ficus_durable_state.specs.Saved.{FitsImage};
ghost use Rattle.ficus_path.specs.Path.{IsEntry, IsNew};
ghost use Rattle.ficus_names.specs.Find.{FindAnswer};
ghost use Rattle.ficus_orphan.specs.Orphan.{IsOrphanIn};
ghost use Rattle.ficus_rules.specs.Rule.{Where};
ghost use Rattle.ficus_rules.specs.View.{IsBoundIn, IsDirectoryIn, IsTakenIn};
ghost use Rattle.ficus_rules.specs.Walk.{BaseRule, WalkRule, DirectoryRule, ParentRule, FileRule, VersionedRule, FixedRule, EntryRule, PlacesRule, last_name, last_target};
ghost use Rattle.ficus_deciding.specs.Files.{as_found, as_places, id_found, IsFileIn};
ghost use Rattle.ficus_deciding.specs.View.{tables_view, HasObject, IsRootOrVisible, IsVisibleBy};

use ficus_durable_state::Saved;
use ficus_file::FileReplica;
use ficus_ids::{Id, Kind, Name, ROOT, Refusal, Sort};
use ficus_names::find;
use ficus_orphan::is_orphan;
use ficus_path::{Base, Part, Path};

// The object to which the parts lead from the base, or the refusal that comes first.
fn walk(saved: &Saved, base: Base, parts: &[Part]) -> Result<Id, Refusal>
    requires { FitsImage saved.now }
    ensures rule { WalkRule (tables_view saved.now) base parts.now result }
    ensures shown { IfOk result (IsRootOrVisible saved.now) }
{
    let mut object = begin(saved, base)?;
    for part in parts {
        object = go_on(saved, object, part)?;
    }
    Ok(object)
}

// The object at which a walk begins.
fn begin(saved: &Saved, base: Base) -> Result<Id, Refusal>
    requires { FitsImage saved.now }
    ensures rule { BaseRule (tables_view saved.now) base result }
    ensures shown { IfOk result (IsRootOrVisible saved.now) }
{
    match base {
        Base::Root => Ok(ROOT),
        Base::Orphan(id) if is_orphan_here(saved, id) => Ok(id),
        Base::Orphan(_) => Err(Refusal::NotOrphan),
    }
}

/// Whether an orphan has this identifier. Takes no memory, and one walk over the entries.
pub(crate) fn is_orphan_here(saved: &Saved, id: Id) -> bool
    requires { FitsImage saved.now }
    ensures { IsTrue result ↔ IsOrphanIn saved.now.entries saved.now.files id }
{
    match saved.files.get(id) {
        Some(file) => is_orphan(&saved.entries, file),
        None => false,
    }
}

// The object to which a part leads.
fn go_on(saved: &Saved, object: Id, part: &Part) -> Result<Id, Refusal>
    requires fits { FitsImage saved.now }
    requires shown { IsRootOrVisible saved.now object }
    ensures rule { let view = tables_view saved.now in
        Where (IsDirectoryIn view object) Refusal.NotDir
        (FindAnswer (IsBoundIn view object) part.now.name part.now.target) result }
    ensures shown { IfOk result (IsRootOrVisible saved.now) }
{
    if !is_directory(saved, object) {
        return Err(Refusal::NotDir);
    }
    find(&saved.entries, object, part)
}

/// Whether the object is a directory.
pub(crate) fn is_directory(saved: &Saved, object: Id) -> bool
    requires fits { FitsImage saved.now }
    requires shown { IsRootOrVisible saved.now object }
    ensures { IsTrue result ↔ IsDirectoryIn (tables_view saved.now) object }
{
    object == ROOT || visible(saved, object).kind == Kind::Dir
}

/// The visible file or directory with this identifier.
pub(crate) fn visible(saved: &Saved, object: Id) -> &FileReplica
    requires fits { FitsImage saved.now }
    requires visible { IsVisibleBy saved.now object }
    ensures { HasObject saved.now object (λ file. file ≡ result.now) }
{
    let Some(file) = saved.files.get(object) else {
        unreachable!()
    };
    file
}

// The directory to which the parts lead.
fn directory_of(saved: &Saved, base: Base, parts: &[Part]) -> Result<Id, Refusal>
    requires { FitsImage saved.now }
    ensures { DirectoryRule (tables_view saved.now) base parts.now result }
{
    let object = walk(saved, base, parts)?;
    if !is_directory(saved, object) {
        return Err(Refusal::NotDir);
    }
    Ok(object)
}

/// The directory at a path.
pub(crate) fn directory_at(saved: &Saved, path: &Path) -> Result<Id, Refusal>
    requires { FitsImage saved.now }
    ensures { DirectoryRule (tables_view saved.now) path.now.base path.now.parts result }
{
    directory_of(saved, path.base, path.parts.items())
}

/// The directory in which the last part of a path is looked up.
pub(crate) fn parent_of(saved: &Saved, path: &Path) -> Result<Id, Refusal>
    requires fits { FitsImage saved.now }
    requires entry { IsEntry path.now }
    ensures { ParentRule (tables_view saved.now) path.now result }
{
    let parts = path.parts.items();
    directory_of(saved, path.base, &parts[..parts.len() - 1])
}

/// The directory of an entry, and the object to which the entry leads.
#[derive(Clone, Copy)]
pub(crate) struct Found {
    pub(crate) dir: Id,
    pub(crate) object: Id,
}

/// The entry at a path that names one.
pub(crate) fn entry_at(saved: &Saved, path: &Path) -> Result<Found, Refusal>
    requires fits { FitsImage saved.now }
    requires entry { IsEntry path.now }
    ensures rule { EntryRule (tables_view saved.now) path.now (as_found result) }
    ensures visible { IfOk result (λ found. IsVisibleBy saved.now found.object) }
{
    let dir = parent_of(saved, path)?;
    let object = found_in(saved, dir, path)?;
    Ok(Found { dir, object })
}

// The object to which the last part of the path leads in the directory.
fn found_in(saved: &Saved, dir: Id, path: &Path) -> Result<Id, Refusal>
    requires entry { IsEntry path.now }
    ensures rule { FindAnswer (IsBoundIn (tables_view saved.now) dir) (last_name path.now) (last_target path.now)
        result }
    ensures visible { IfOk result (IsVisibleBy saved.now) }
{
    find(&saved.entries, dir, last_part(path))
}

/// Where an object that gets a new path is found, and the directory of that path.
#[derive(Clone, Copy)]
pub(crate) struct Places {
    pub(crate) found: Found,
    pub(crate) dir: Id,
}

/// The entry at the one path, and the directory of the new one.
pub(crate) fn places_of(saved: &Saved, from: &Path, path: &Path) -> Result<Places, Refusal>
    requires fits { FitsImage saved.now }
    requires entry { IsEntry from.now }
    requires new { IsNew path.now }
    ensures rule { PlacesRule (tables_view saved.now) from.now path.now (as_places result) }
    ensures visible { IfOk result (λ places. IsVisibleBy saved.now places.found.object) }
{
    let found = entry_at(saved, from)?;
    let dir = parent_of(saved, path)?;
    Ok(Places { found, dir })
}

/// The file at a path.
pub(crate) fn file_at<'a>(saved: &'a Saved, path: &Path) -> Result<&'a FileReplica, Refusal>
    requires { FitsImage saved.now }
    ensures rule { FileRule (tables_view saved.now) path.now (id_found result) }
    ensures file { IfOk result (λ file. IsFileIn saved.now file.now) }
{
    let object = walk(saved, path.base, path.parts.items())?;
    if is_directory(saved, object) {
        return Err(Refusal::IsDir);
    }
    Ok(visible(saved, object))
}

/// The file at a path whose versions change.
pub(crate) fn versioned_at<'a>(saved: &'a Saved, path: &Path) -> Result<&'a FileReplica, Refusal>
    requires { FitsImage saved.now }
    ensures rule { VersionedRule (tables_view saved.now) path.now (id_found result) }
    ensures file { IfOk result (λ file. IsFileIn saved.now file.now) }
    ensures versioned { IfOk result (λ file. sort_of file.now.kind ≡ Versioned) }
{
    let file = file_at(saved, path)?;
    if is_fixed(file) {
        return Err(Refusal::IsLink);
    }
    Ok(file)
}

/// The symbolic link at a path.
pub(crate) fn fixed_at<'a>(saved: &'a Saved, path: &Path) -> Result<&'a FileReplica, Refusal>
    requires { FitsImage saved.now }
    ensures rule { FixedRule (tables_view saved.now) path.now (id_found result) }
    ensures file { IfOk result (λ file. IsFileIn saved.now file.now) }
    ensures fixed { IfOk result (λ file. sort_of file.now.kind ≡ Fixed) }
{
    let object = walk(saved, path.base, path.parts.items())?;
    if is_directory(saved, object) {
        return Err(Refusal::NotLink);
    }
    let file = visible(saved, object);
    if !is_fixed(file) {
        return Err(Refusal::NotLink);
    }
    Ok(file)
}

// Whether the text of the object stays.
fn is_fixed(file: &FileReplica) -> bool
    ensures { IsTrue result ↔ (sort_of file.now.kind ≡ Fixed) }
{
    file.kind.sort() == Sort::Fixed
}

/// Whether a live entry of the directory has the name of a new path.
pub(crate) fn is_taken(saved: &Saved, dir: Id, path: &Path) -> bool
    requires { IsNew path.now }
    ensures { IsTrue result ↔ IsTakenIn (tables_view saved.now) dir (last_name path.now) }
{
    match find(&saved.entries, dir, last_part(path)) {
        Ok(_) => true,
        Err(refusal) => refusal != Refusal::NoEntry,
    }
}

/// The name of the last part of a path that names an entry.
pub(crate) fn last_name(path: &Path) -> &Name
    requires { IsEntry path.now }
    ensures { result.now ≡ last_name path.now }
{
    &last_part(path).name
}

// The last part of a path that names an entry.
fn last_part(path: &Path) -> &Part
    requires { IsEntry path.now }
    ensures { last_or None path.now.parts ≡ Some result.now }
{
    let parts = path.parts.items();
    &parts[parts.len() - 1]
}
