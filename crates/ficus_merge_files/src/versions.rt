ghost use Rattle.std.specs.Prelude.{◌≡◌, ◌⊎◌, ◌↔◌, IsTrue, IfOk, IfSome, IfNone, OnOk, Contains};
ghost use Rattle.ficus_file.specs.declared.version.Version.{Version as VersionValue};
ghost use Rattle.ficus_merge_files.specs.Versions.{HasOver, HasVector, IsLatest, AreOrdered, AreMerged, AreOfEither, HaveOneText, IsPlaceOf, KeepsOrGains, GainsKept};

use ficus_file::{Version, Versions};
use ficus_ids::Memory;
use ficus_vectors::{Standing, Vector};
use std::alloc::Global;
use std::cmp::Ordering;

/// Whether some version is over the vector.
fn has_over(versions: &[Version], vector: Vector) -> bool
    ensures { IsTrue result ↔ HasOver versions.now vector }
{
    for version in versions {
        if matches!(version.vector.compare(vector), Standing::Over) {
            return true;
        }
    }
    false
}

/// Whether some version has the vector.
pub(crate) fn has_vector(versions: &[Version], vector: Vector) -> bool
    ensures { IsTrue result ↔ HasVector versions.now vector }
{
    for version in versions {
        if matches!(version.vector.compare(vector), Standing::Equal) {
            return true;
        }
    }
    false
}

/// Whether no version of either list is over the vector.
pub(crate) fn is_latest(mine: &[Version], theirs: &[Version], vector: Vector) -> bool
    ensures { IsTrue result ↔ IsLatest mine.now theirs.now vector }
{
    !has_over(mine, vector) && !has_over(theirs, vector)
}

// Whether the vector is under one of the two lists, or is one of mine.
fn is_settled(mine: &[Version], theirs: &[Version], vector: Vector) -> bool
    ensures { IsTrue result → IsLatest mine.now theirs.now vector → HasVector mine.now vector }
{
    has_vector(mine, vector) || !is_latest(mine, theirs, vector)
}

// Whether no version of either list is over any of mine.
fn are_latest(mine: &[Version], theirs: &[Version]) -> bool
    ensures { IsTrue result → (version : VersionValue) → Contains mine.now version →
        IsLatest mine.now theirs.now version.vector }
{
    for version in mine {
        if !is_latest(mine, theirs, version.vector) {
            return false;
        }
    }
    true
}

// Whether theirs has no version that mine lacks and that none is over.
fn are_settled(mine: &[Version], theirs: &[Version]) -> bool
    ensures { IsTrue result → (version : VersionValue) → Contains theirs.now version →
        IsLatest mine.now theirs.now version.vector → HasVector mine.now version.vector }
{
    for version in theirs {
        if !is_settled(mine, theirs, version.vector) {
            return false;
        }
    }
    true
}

/// Whether mine are what both make together.
pub(crate) fn is_whole(mine: &[Version], theirs: &[Version]) -> bool
    requires one_text { HaveOneText mine.now theirs.now }
    requires ordered { AreOrdered mine.now }
    ensures { IsTrue result → AreMerged mine.now theirs.now mine.now }
{
    are_latest(mine, theirs) && are_settled(mine, theirs)
}

// Where a version with the vector goes, or `None` exactly where one has it.
fn place_of(versions: &[Version], vector: Vector) -> Option<usize>
    requires { AreOrdered versions.now }
    ensures place { IfSome result (IsPlaceOf versions.now vector) }
    ensures none { IfNone result (HasVector versions.now vector) }
{
    for index in 0..versions.len() {
        match versions[index].vector.order(vector) {
            Ordering::Less => {}
            Ordering::Equal => return None,
            Ordering::Greater => return Some(index),
        }
    }
    Some(versions.len())
}

// Adds a version at its place, if none has its vector.
fn add_version(alloc: Global, version: &Version, kept: &mut Vec<Version>) -> Result<(), Memory>
    requires { AreOrdered kept.old.items }
    ensures gained { OnOk result (KeepsOrGains kept.old.items kept.new.items version.now) }
    ensures ordered { OnOk result (AreOrdered kept.new.items) }
{
    if let Some(place) = place_of(kept, version.vector) {
        kept.insert(place, version.copy(alloc)?)?;
    }
    Ok(())
}

// Adds those of the versions that none of the two lists is over.
fn add_latest(
    alloc: Global,
    from: &[Version],
    mine: &[Version],
    theirs: &[Version],
    kept: &mut Vec<Version>,
) -> Result<(), Memory>
    requires ordered { AreOrdered kept.old.items }
    requires one_text { HaveOneText mine.now theirs.now }
    requires from { AreOfEither from.now mine.now theirs.now }
    requires kept { AreOfEither kept.old.items mine.now theirs.now }
    ensures gained { OnOk result (GainsKept from.now mine.now theirs.now kept.old.items kept.new.items) }
    ensures ordered { OnOk result (AreOrdered kept.new.items) }
{
    for version in from {
        if is_latest(mine, theirs, version.vector) {
            add_version(alloc, version, kept)?;
        }
    }
    Ok(())
}

// The versions of both, copied.
fn joined(alloc: Global, mine: &[Version], theirs: &[Version]) -> Result<Versions, Memory>
    requires { HaveOneText mine.now theirs.now }
    ensures { IfOk result (AreMerged mine.now theirs.now) }
{
    let mut kept = Vec::new(alloc);
    add_latest(alloc, mine, mine, theirs, &mut kept)?;
    add_latest(alloc, theirs, mine, theirs, &mut kept)?;
    Versions::of(alloc, kept)
}

/// The versions of both that no version of either is over. Bytes are copied only where neither has them all.
pub(crate) fn merged_versions(
    alloc: Global,
    mine: &Versions,
    theirs: &Versions,
) -> Result<Versions, Memory>
    requires one_text { HaveOneText mine.now theirs.now }
    requires mine { AreOrdered mine.now }
    requires theirs { AreOrdered theirs.now }
    ensures { IfOk result (AreMerged mine.now theirs.now) }
{
    if is_whole(mine.items(), theirs.items()) {
        mine.copy(alloc)
    } else if is_whole(theirs.items(), mine.items()) {
        theirs.copy(alloc)
    } else {
        joined(alloc, mine.items(), theirs.items())
    }
}
