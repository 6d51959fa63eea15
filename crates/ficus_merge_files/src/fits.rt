ghost use Rattle.std.specs.Prelude.{◌≡◌, ◌↔◌, ◌≤◌, List, length, Contains, IsTrue, IfSome, false};
ghost use Rattle.ficus_ids.specs.Rising.{HoldsBy};
ghost use Rattle.ficus_file.specs.declared.version.Version.{Version as VersionValue};
ghost use Rattle.ficus_file.specs.File.{most_versions};
ghost use Rattle.ficus_file.specs.Files.{IsSoundFile};
ghost use Rattle.ficus_merge_files.specs.Merge.{AgreeOnBytes, CanMerge, Fit};
ghost use Rattle.ficus_merge_files.specs.Versions.{HasVector, IsLatest, AreOrdered, AreOfEither, HaveOneText};
ghost use Rattle.ficus_merge_files.specs.Counts.{HaveSameVectors, Grows, MakeSoMany};

use crate::News;
use crate::versions::{has_vector, is_latest};
use ficus_file::{FileReplica, Version};
use ficus_ids::{Kind, Sort};
use ficus_vectors::{Standing, Vector};

// Whether the two versions differ in vectors, or have the same bytes.
fn is_consistent(version: &Version, other: &Version) -> bool
    ensures { IsTrue result ↔ (version.now.vector ≡ other.now.vector → version.now.bytes ≡ other.now.bytes) }
{
    !matches!(version.vector.compare(other.vector), Standing::Equal) || version.has_bytes_of(other)
}

// Whether each of the versions is consistent with this one.
fn agrees(versions: &[Version], other: &Version) -> bool
    ensures { IsTrue result ↔ ((version : VersionValue) → Contains versions.now version →
        version.vector ≡ other.now.vector → version.bytes ≡ other.now.bytes) }
{
    for version in versions {
        if !is_consistent(version, other) {
            return false;
        }
    }
    true
}

// Whether no vector is in both with different bytes.
fn agree(mine: &[Version], theirs: &[Version]) -> bool
    ensures { IsTrue result ↔ AgreeOnBytes mine.now theirs.now }
{
    for other in theirs {
        if !agrees(mine, other) {
            return false;
        }
    }
    true
}

// Whether the vector is under neither list, and not among these.
fn is_new(mine: &[Version], theirs: &[Version], but: &[Version], vector: Vector) -> bool
    ensures latest { IsTrue result → IsLatest mine.now theirs.now vector }
    ensures new { IsTrue result → HasVector but.now vector → ⊥ }
    ensures known { result ≡ false → IsLatest mine.now theirs.now vector → HasVector but.now vector }
{
    !has_vector(but, vector) && is_latest(mine, theirs, vector)
}

// How many of the versions are under neither list, and not among these.
fn count_new(from: &[Version], mine: &[Version], theirs: &[Version], but: &[Version]) -> usize
    requires one_text { HaveOneText mine.now theirs.now }
    requires from { AreOfEither from.now mine.now theirs.now }
    requires ordered { AreOrdered from.now }
    ensures bound { result ≤ length from.now }
    ensures grows { (old : List VersionValue) → AreOrdered old → AreOfEither old mine.now theirs.now →
        HaveSameVectors from.now mine.now theirs.now old but.now → Grows from.now mine.now theirs.now old result }
{
    let mut count = 0;
    for version in from {
        if is_new(mine, theirs, but, version.vector) {
            count += 1;
        }
    }
    count
}

// How many versions both make together.
fn count_merged(mine: &[Version], theirs: &[Version]) -> usize
    requires one_text { HaveOneText mine.now theirs.now }
    requires mine { AreOrdered mine.now }
    requires theirs { AreOrdered theirs.now }
    requires few_mine { length mine.now ≤ 8 }
    requires few_theirs { length theirs.now ≤ 8 }
    ensures { MakeSoMany mine.now theirs.now result }
{
    count_new(mine, mine, theirs, &[]) + count_new(theirs, mine, theirs, mine)
}

// Whether the kinds are one.
fn is_same(kind: Kind, other: Kind) -> bool
    ensures { IsTrue result ↔ (kind ≡ other) }
{
    kind == other
}

// The most versions that an object for this has.
fn most_versions(sort: Sort) -> usize
    ensures { result ≡ most_versions sort }
{
    match sort {
        Sort::Directory => 0,
        Sort::Versioned => 8,
        Sort::Fixed => 1,
    }
}

/// Whether two files with one identifier can be merged.
pub(crate) fn can_merge(mine: &FileReplica, theirs: &FileReplica) -> bool
    requires mine { IsSoundFile mine.now }
    requires theirs { IsSoundFile theirs.now }
    ensures { IsTrue result ↔ CanMerge mine.now theirs.now }
{
    if !is_same(mine.kind, theirs.kind) {
        return false;
    }
    let (versions, others) = (mine.versions.items(), theirs.versions.items());
    if !agree(versions, others) {
        return false;
    }
    count_merged(versions, others) <= most_versions(mine.kind.sort())
}

/// Whether the two lists of files can be merged, as `merge_fits` says of them. Takes no memory, and looks at what is
/// new alone.
pub fn news_fit(news: &News<'_>) -> bool
    ensures { IsTrue result ↔ Fit news.now.mine news.now.theirs }
{
    for index in 0..news.len() {
        let new = news.at(index);
        if let Some(file) = new.mine {
            if !can_merge(file, new.theirs) {
                return false;
            }
        }
    }
    true
}
