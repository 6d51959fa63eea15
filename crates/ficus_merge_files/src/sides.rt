ghost use Rattle.std.specs.Prelude.{◌↔◌, IsTrue, IfOk};
ghost use Rattle.ficus_file.specs.Files.{AreFiles, IsSoundFile};
ghost use Rattle.ficus_merge_files.specs.Merge.{Fit, FitsAmong, AreMergedFiles};
ghost use Rattle.ficus_mentions.specs.Touched.{touched_by};

use crate::News;
use crate::fits::can_merge;
use crate::merge::merge_news;
use ficus_entry::Entries;
use ficus_file::{FileReplica, Files};
use ficus_ids::Memory;
use std::alloc::Global;

/// Whether two lists of files can be merged: no object is in both with different kinds, no file of both has one
/// vector with different bytes in the two, and no file of both would keep more than 8 versions. Takes no memory.
pub fn merge_fits(mine: &Files, theirs: &Files) -> bool
    ensures { IsTrue result ↔ Fit mine.now theirs.now }
{
    for index in 0..theirs.len() {
        let file = theirs.at(index);
        if !fits_among(mine, file) {
            return false;
        }
    }
    true
}

// Whether the file of theirs can be merged with that of mine, if there is one.
fn fits_among(mine: &Files, theirs: &FileReplica) -> bool
    requires { IsSoundFile theirs.now }
    ensures { IsTrue result ↔ FitsAmong mine.now theirs.now }
{
    match mine.get(theirs.id) {
        Some(file) => can_merge(file, theirs),
        None => true,
    }
}

/// What the files of two replicas make together, which [can be merged](merge_fits). Every file of mine stays. A file of
/// both has exactly the versions that no version of either is over, and the join of the covers. A file of theirs
/// alone is taken exactly where an entry of `held` names it or lies in it.
pub fn merge_files(
    alloc: Global,
    mine: &Files,
    theirs: &Files,
    held: &Entries,
) -> Result<Files, Memory>
    requires { Fit mine.now theirs.now }
    ensures merged { IfOk result (AreMergedFiles (touched_by held.now) mine.now theirs.now) }
    ensures files { IfOk result AreFiles }
{
    let news = News::of(alloc, mine, theirs.in_order()?)?;
    merge_news(alloc, &news, held)
}
