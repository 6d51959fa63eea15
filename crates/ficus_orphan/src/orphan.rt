ghost use Rattle.std.specs.Prelude.{◌↔◌, Contains, IsTrue, IfOk};
ghost use Rattle.ficus_ids.specs.declared.id.Id.{Id as IdValue};
ghost use Rattle.ficus_entry.specs.Inside.{IsNamedBy};
ghost use Rattle.ficus_orphan.specs.Orphan.{AreOrphans, IsKept, IsOrphanBy, TellsFile};

use crate::IdSet;
use crate::naming::named;
use ficus_entry::Entries;
use ficus_file::{FileReplica, Files, FilesInOrder, Orphan};
use ficus_ids::{Kind, Memory};
use std::alloc::Global;

/// Whether the file or directory is an orphan: no live entry leads to it, and it is a directory with a live entry in it
/// or a file with a version that isn't covered. Takes no memory, and one walk over the entries.
pub fn is_orphan(entries: &Entries, file: &FileReplica) -> bool
    ensures { IsTrue result ↔ IsOrphanBy entries.now file.now }
{
    is_kept(entries, file) && !entries.live_naming(file.id)
}

/// Whether it is a directory with a live entry in it or a file with a version that isn't covered. Takes no memory.
pub fn is_kept(entries: &Entries, file: &FileReplica) -> bool
    ensures { IsTrue result ↔ IsKept entries.now file.now }
{
    (file.kind == Kind::Dir && entries.live_inside(file.id)) || file.uncovered()
}

/// All orphans, by identifier. It goes once over the entries and once over the files.
pub fn orphans(alloc: Global, entries: &Entries, files: &Files) -> Result<Vec<Orphan>, Memory>
    ensures { IfOk result (λ orphans. AreOrphans entries.now files.now orphans.items) }
{
    let named = named(alloc, entries)?;
    let in_order = files.in_order()?;
    nameless(alloc, entries, &named, &in_order)
}

// Those of the files that are kept and not among the named ones.
fn nameless(
    alloc: Global,
    entries: &Entries,
    named: &IdSet,
    files: &FilesInOrder<'_>,
) -> Result<Vec<Orphan>, Memory>
    requires { (object : IdValue) → Contains named.now object ↔ IsNamedBy entries.now object }
    ensures { IfOk result (λ orphans. AreOrphans entries.now files.now orphans.items) }
{
    let mut orphans = Vec::new(alloc);
    for index in 0..files.len() {
        let file = files.at(index);
        if is_left(entries, named, file) {
            orphans.push(orphan_of(file))?;
        }
    }
    Ok(orphans)
}

// Whether the file or directory is kept and not among the named ones.
fn is_left(entries: &Entries, named: &IdSet, file: &FileReplica) -> bool
    requires { (object : IdValue) → Contains named.now object ↔ IsNamedBy entries.now object }
    ensures { IsTrue result ↔ IsOrphanBy entries.now file.now }
{
    is_kept(entries, file) && !named.has(file.id)
}

// What is told of an orphan.
fn orphan_of(file: &FileReplica) -> Orphan
    ensures { TellsFile file.now result }
{
    Orphan {
        id: file.id,
        kind: file.kind,
        conflict: file.is_conflict(),
    }
}
