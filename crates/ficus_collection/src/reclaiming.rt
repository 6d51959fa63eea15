ghost use Rattle.std.specs.Prelude.{◌≡◌, ◌≤◌, ◌<◌, ◌+◌, ◌^◌, length, IfOk};
ghost use Rattle.ficus_ids.specs.Rising.{IsRisingBy};
ghost use Rattle.ficus_file.specs.declared.orphan.Orphan.{Orphan as OrphanValue};
ghost use Rattle.ficus_collection.specs.Reclaim.{IsReclaimed};

use crate::known::fully_known;
use crate::unneeded::unneeded;
use ficus_entry::Entries;
use ficus_file::{Files, Orphan};
use ficus_ids::{Members, Memory};
use std::alloc::Global;

/// What a collection leaves, and how much it gave up.
#[derive(Drop)]
pub struct Reclaimed {
    /// The entries that are left.
    pub entries: Entries,
    /// The files that are left.
    pub files: Files,
    /// How many entries were given up.
    pub dropped_entries: u32,
    /// How many files were given up.
    pub dropped_files: u32,
}

/// Gives up exactly the removed entries whose second set of marks has every member, and then exactly the files that no
/// entry which is left names or lies in and that are none of the orphans. The orphans' identifiers rise strictly, and
/// there are fewer than 2^32 entries and files each. It takes one walk over the entries and one over the files.
pub fn reclaim(
    alloc: Global,
    entries: &Entries,
    files: &Files,
    orphans: &[Orphan],
    members: Members,
) -> Result<Reclaimed, Memory>
    requires orphans { IsRisingBy (λ (orphan : OrphanValue). orphan.id) orphans.now }
    requires entries { length entries.now < 2 ^ 32 }
    requires files { length files.now < 2 ^ 32 }
    ensures { IfOk result (IsReclaimed members entries.now files.now orphans.now) }
{
    let known = fully_known(alloc, entries, members)?;
    let entries_left = entries.without(&known)?;
    let unneeded = unneeded(alloc, &entries_left, files, orphans)?;
    let files_left = files.without(&unneeded)?;
    let dropped_entries = fewer(entries.len(), entries_left.len());
    let dropped_files = fewer(files.len(), files_left.len());
    Ok(Reclaimed {
        entries: entries_left,
        files: files_left,
        dropped_entries,
        dropped_files,
    })
}

// How many fewer there are after than before.
fn fewer(before: usize, after: usize) -> u32
    requires fewer { after ≤ before }
    requires few { before < 2 ^ 32 }
    ensures { after + result ≡ before }
{
    (before - after) as u32
}
