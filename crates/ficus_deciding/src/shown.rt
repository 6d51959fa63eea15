ghost use Rattle.std.specs.Prelude.{◌↔◌, Contains, IfOk, IsTrue};
ghost use Rattle.ficus_durable_state.specs.Saved.{FitsImage};
ghost use Rattle.ficus_ids.specs.Rising.{IsRisingBy};
ghost use Rattle.ficus_ids.specs.declared.id.Id.{Id as IdValue};
ghost use Rattle.ficus_deciding.specs.Chosen.{IsShownBy};
ghost use Rattle.ficus_deciding.specs.View.{IsVisibleBy};

use crate::chosen::{Choice, chosen};
use ficus_durable_state::Saved;
use ficus_entry::Entries;
use ficus_file::FileReplica;
use ficus_ids::{Id, Memory};
use ficus_orphan::{IdSet, is_kept, named};
use std::alloc::Global;

/// The visible objects, rising.
pub(crate) fn visible_ids(alloc: Global, saved: &Saved) -> Result<Vec<Id>, Memory>
    requires { FitsImage saved.now }
    ensures visible { IfOk result (λ ids. (object : IdValue) →
        Contains ids.items object ↔ IsVisibleBy saved.now object) }
    ensures rising { IfOk result (λ ids. IsRisingBy (λ (id : IdValue). id) ids.items) }
{
    let entries = &saved.entries;
    let named = named(alloc, entries)?;
    let files = saved.files.in_order()?;
    let shown = Shown {
        entries,
        named: &named,
    };
    chosen(alloc, &files, &shown)
}

/// Whether the file or directory is among the named objects, or is kept besides.
pub(crate) fn is_shown(entries: &Entries, named: &IdSet, file: &FileReplica) -> bool
    ensures { IsTrue result ↔ IsShownBy entries.now named.now file.now }
{
    named.has(file.id) || is_kept(entries, file)
}

// The files and directories that are shown.
#[derive(Clone, Copy)]
struct Shown<'a> {
    entries: &'a Entries,
    named: &'a IdSet,
}

impl<'a> Choice for Shown<'a> {
    ghost use Rattle.ficus_deciding.specs.Chosen.{IsShownBy};

    ghost Chooses = { λ choice file. IsShownBy choice.entries.now choice.named.now file };

    fn chooses(&self, file: &FileReplica) -> bool {
        is_shown(self.entries, self.named, file)
    }
}
