ghost use Rattle.std.specs.Prelude.{◌≡◌, length, unwrap_or, Some, All, Contains, IsTrue, IfOk, IfSome, OnOk};
ghost use Rattle.ficus_ids.specs.Rising.{IsRisingBy};
ghost use Rattle.ficus_file.specs.declared.file.FileReplica.{FileReplica as FileValue};
ghost use Rattle.ficus_file.specs.Files.{AreFiles, IsSoundFile};
ghost use Rattle.ficus_merge_files.specs.Merge.{CanMerge, Fit, IsMergedFile, IsTaken, AreMergedFiles};
ghost use Rattle.ficus_merge_files.specs.News.{IsBeside, HasRow};
ghost use Rattle.ficus_merge_files.specs.Replacements.{IsReplacement, AddsReplacement, AreReplacements};
ghost use Rattle.ficus_mentions.specs.Touched.{touched_by};

use crate::versions::{is_whole, merged_versions};
use crate::{NewFile, News, alone};
use ficus_entry::Entries;
use ficus_file::{FileReplica, Files, SharedFile};
use ficus_ids::{Id, Memory};
use ficus_mentions::is_among;
use ficus_persistent::Item;
use std::alloc::Global;

// Whether the file of theirs adds nothing to mine.
fn adds_nothing(mine: &FileReplica, theirs: &FileReplica) -> bool
    requires can { CanMerge mine.now theirs.now }
    requires mine { IsSoundFile mine.now }
    requires theirs { IsSoundFile theirs.now }
    ensures { IsTrue result → IsMergedFile mine.now theirs.now mine.now }
{
    mine.covered.covers(theirs.covered) && is_whole(mine.versions.items(), theirs.versions.items())
}

// What both files make together.
fn merged_file(
    alloc: Global,
    mine: &FileReplica,
    theirs: &FileReplica,
) -> Result<FileReplica, Memory>
    requires can { CanMerge mine.now theirs.now }
    requires mine { IsSoundFile mine.now }
    requires theirs { IsSoundFile theirs.now }
    ensures merged { IfOk result (IsMergedFile mine.now theirs.now) }
    ensures held { IfOk result IsSoundFile }
{
    let versions = merged_versions(alloc, &mine.versions, &theirs.versions)?;
    Ok(FileReplica {
        id: mine.id,
        kind: mine.kind,
        versions,
        covered: mine.covered.join(theirs.covered),
    })
}

// What the file of both becomes, unless mine stays.
fn merged_replacement(
    alloc: Global,
    mine: &FileReplica,
    theirs: &FileReplica,
) -> Result<Option<SharedFile>, Memory>
    requires can { CanMerge mine.now theirs.now }
    requires mine { IsSoundFile mine.now }
    requires theirs { IsSoundFile theirs.now }
    ensures merged { IfOk result (λ replacement. IsMergedFile mine.now theirs.now (unwrap_or replacement mine.now)) }
    ensures held { IfOk result (λ replacement. IfSome replacement IsSoundFile) }
{
    if adds_nothing(mine, theirs) {
        return Ok(None);
    }
    let both = merged_file(alloc, mine, theirs)?;
    Ok(Some(SharedFile::of(alloc, both)?))
}

// The file of theirs alone, where it is taken.
fn taken(alloc: Global, new: NewFile<'_>, held: &[Id]) -> Result<Option<SharedFile>, Memory>
    requires rising { IsRisingBy (λ other. other) held.now }
    requires row { HasRow new }
    ensures taken { IfOk result (IsTaken held.now new.entry.theirs.now) }
    ensures of_theirs { IfOk result (λ taken. (file : FileValue) → taken ≡ Some file → file ≡ new.entry.theirs.now) }
{
    if !is_among(held, new.theirs.id) {
        return Ok(None);
    }
    let shared = shared(alloc, new)?;
    Ok(Some(shared))
}

// The file of theirs to share: their row, where it is known.
fn shared(alloc: Global, new: NewFile<'_>) -> Result<SharedFile, Memory>
    requires { HasRow new }
    ensures { IfOk result (λ file. file ≡ new.entry.theirs.now) }
{
    match new.row {
        Some(row) => row.copied(),
        None => SharedFile::of(alloc, new.theirs.copy(alloc)?),
    }
}

// What stands for a new file in place of mine, unless mine stay.
fn replacement(
    alloc: Global,
    news: &News<'_>,
    new: NewFile<'_>,
    held: &[Id],
) -> Result<Option<SharedFile>, Memory>
    requires theirs { Contains news.now.theirs new.theirs.now }
    requires mine { IsBeside news.now.mine new }
    requires row { HasRow new }
    requires fit { Fit news.now.mine news.now.theirs }
    requires rising { IsRisingBy (λ id. id) held.now }
    ensures { IfOk result (IsReplacement held.now news.now.mine new.entry.theirs.now) }
{
    // Tells that both sides may be held.
    let _count = news.len();
    match new.mine {
        Some(file) => merged_replacement(alloc, file, new.theirs),
        None => taken(alloc, new, held),
    }
}

// Puts it behind the others.
fn add_replacement(
    replacements: &mut Vec<SharedFile>,
    alloc: Global,
    news: &News<'_>,
    new: NewFile<'_>,
    held: &[Id],
) -> Result<(), Memory>
    requires theirs { Contains news.now.theirs new.theirs.now }
    requires mine { IsBeside news.now.mine new }
    requires row { HasRow new }
    requires fit { Fit news.now.mine news.now.theirs }
    requires rising { IsRisingBy (λ id. id) held.now }
    ensures { OnOk result
        (AddsReplacement held.now news.now.mine new.entry.theirs.now replacements.old.items replacements.new.items) }
{
    if let Some(file) = replacement(alloc, news, new, held)? {
        replacements.push(file)?;
    }
    Ok(())
}

// The files of both that mine don't hold as they are afterwards.
fn replacements(alloc: Global, news: &News<'_>, held: &[Id]) -> Result<Vec<SharedFile>, Memory>
    requires fit { Fit news.now.mine news.now.theirs }
    requires rising { IsRisingBy (λ id. id) held.now }
    ensures replacements { IfOk result (λ replacements.
        AreReplacements held.now news.now.mine news.now.new replacements.items) }
    ensures files { IfOk result (λ replacements. AreFiles replacements.items) }
{
    let mut replacements = Vec::with_capacity(alloc, news.len())?;
    for index in 0..news.len() {
        add_replacement(&mut replacements, alloc, news, news.at(index), held)?;
    }
    Ok(replacements)
}

// Whether all of the files are held, by rising identifiers.
fn are_held(held: &[Id], files: &[SharedFile]) -> bool
    requires { IsRisingBy (λ id. id) held.now }
    ensures { IsTrue result → All (λ file. Contains held.now file.id) files.now }
{
    for file in files {
        if !is_among(held, file.file().id) {
            return false;
        }
    }
    true
}

// All of theirs, by their rows, where these are known, all of them are held, and mine are none: then they are what both
// make.
fn all_taken<'a>(news: &News<'a>, held: &[Id]) -> Option<&'a [SharedFile]>
    requires { IsRisingBy (λ id. id) held.now }
    ensures theirs { IfSome result (λ rows. rows.now ≡ news.now.theirs) }
    ensures none { IfSome result (λ _. length news.now.mine ≡ 0) }
    ensures held { IfSome result (λ rows. All (λ file. Contains held.now file.id) rows.now) }
{
    let rows = news.their_rows()?;
    if news.mine().len() == 0 && are_held(held, rows) {
        Some(rows)
    } else {
        None
    }
}

/// What the files make together, as `merge_files` says of the two lists. All that stays is shared with mine.
pub fn merge_news(alloc: Global, news: &News<'_>, held: &Entries) -> Result<Files, Memory>
    requires { Fit news.now.mine news.now.theirs }
    ensures merged { IfOk result (AreMergedFiles (touched_by held.now) news.now.mine news.now.theirs) }
    ensures files { IfOk result AreFiles }
{
    let taken = alone::taken(alloc, held, news)?;
    merged_with(alloc, news, taken)
}

// The same where these alone of theirs are held, by rising identifiers. They are given up before the list is made.
fn merged_with(alloc: Global, news: &News<'_>, held: Vec<Id>) -> Result<Files, Memory>
    requires fit { Fit news.now.mine news.now.theirs }
    requires rising { IsRisingBy (λ id. id) held.items }
    ensures merged { IfOk result (AreMergedFiles held.items news.now.mine news.now.theirs) }
    ensures files { IfOk result AreFiles }
{
    // Tells that both sides may be held.
    let _count = news.len();
    if let Some(rows) = all_taken(news, &held) {
        drop(held);
        return Files::of_rows(alloc, rows);
    }
    let replacements = replacements(alloc, news, &held)?;
    drop(held);
    let mut both = news.mine().copy()?;
    both.replace(&replacements)?;
    Ok(both)
}
