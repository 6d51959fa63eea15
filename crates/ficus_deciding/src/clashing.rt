ghost use Rattle.std.specs.Prelude.{◌↔◌, Contains, IfOk};
ghost use Rattle.ficus_durable_state.specs.Saved.{FitsImage};
ghost use Rattle.ficus_ids.specs.Rising.{IsRisingBy};
ghost use Rattle.ficus_ids.specs.declared.id.Id.{Id as IdValue};
ghost use Rattle.ficus_rules.specs.Conflicts.{AreClashesIn};
ghost use Rattle.ficus_deciding.specs.View.{tables_view};

use crate::chosen::{Choice, chosen};
use crate::shown::is_shown;
use ficus_durable_state::Saved;
use ficus_entry::Entries;
use ficus_file::FileReplica;
use ficus_ids::{Id, Listed, Memory};
use ficus_names::{Clashes, name_clashes};
use ficus_orphan::{IdSet, named};
use std::alloc::Global;

/// The names that lead to several objects, and the visible files in conflict.
pub fn conflicts(alloc: Global, saved: &Saved) -> Result<Clashes, Memory>
    requires { FitsImage saved.now }
    ensures { IfOk result (λ clashes. AreClashesIn (tables_view saved.now) clashes) }
{
    let names = name_clashes(alloc, &saved.entries)?;
    let files = files_in_conflict(alloc, saved)?;
    Ok(Clashes {
        names: Listed::of(names),
        files: Listed::of(files),
    })
}

// The visible files in conflict, rising.
fn files_in_conflict(alloc: Global, saved: &Saved) -> Result<Vec<Id>, Memory>
    requires { FitsImage saved.now }
    ensures files { IfOk result (λ files. (file : IdValue) →
        Contains files.items file ↔ (tables_view saved.now).conflicts file) }
    ensures rising { IfOk result (λ files. IsRisingBy (λ (id : IdValue). id) files.items) }
{
    let entries = &saved.entries;
    let named = named(alloc, entries)?;
    let files = saved.files.in_order()?;
    let clashing = Clashing {
        entries,
        named: &named,
    };
    chosen(alloc, &files, &clashing)
}

// The files in conflict that are named or kept.
#[derive(Clone, Copy)]
struct Clashing<'a> {
    entries: &'a Entries,
    named: &'a IdSet,
}

impl<'a> Choice for Clashing<'a> {
    ghost use Rattle.ficus_deciding.specs.Chosen.{IsClashing};

    ghost Chooses = { λ choice file. IsClashing choice.entries.now choice.named.now file };

    fn chooses(&self, file: &FileReplica) -> bool {
        file.is_conflict() && is_shown(self.entries, self.named, file)
    }
}
