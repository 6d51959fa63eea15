ghost use Rattle.std.specs.Prelude.{◌≡◌, ◌⊎◌, ◌↔◌, Contains, IfOk};
ghost use Rattle.ficus_durable_state.specs.Saved.{FitsImage};
ghost use Rattle.ficus_ids.specs.declared.id.Id.{Id as IdValue};
ghost use Rattle.ficus_ids.specs.declared.id.TheConstants.{ROOT as RootValue};
ghost use Rattle.ficus_orphan.specs.Orphan.{IsOrphanIn};
ghost use Rattle.ficus_rules.specs.Detached.{AreDetachedIn};
ghost use Rattle.ficus_rules.specs.Orphans.{AreOrphansIn};
ghost use Rattle.ficus_rules.specs.View.{IsInReachIn};
ghost use Rattle.ficus_deciding.specs.View.{tables_view};

use crate::chosen::{Choice, chosen};
use ficus_durable_state::Saved;
use ficus_file::{FileReplica, Orphan};
use ficus_ids::{Id, Kind, Memory, ROOT};
use ficus_orphan::{IdSet, named};
use ficus_reach::reached;
use std::alloc::Global;

/// The orphans, by identifier.
pub fn orphans(alloc: Global, saved: &Saved) -> Result<Vec<Orphan>, Memory>
    requires { FitsImage saved.now }
    ensures { IfOk result (λ orphans. AreOrphansIn (tables_view saved.now) orphans.items) }
{
    ficus_orphan::orphans(alloc, &saved.entries, &saved.files)
}

/// The directories that are named and not in reach, rising.
pub fn detached(alloc: Global, saved: &Saved) -> Result<Vec<Id>, Memory>
    requires { FitsImage saved.now }
    ensures { IfOk result (λ dirs. AreDetachedIn (tables_view saved.now) dirs.items) }
{
    let named = named(alloc, &saved.entries)?;
    let reached = in_reach(alloc, saved)?;
    let files = saved.files.in_order()?;
    let apart = Apart {
        named: &named,
        reached: &reached,
    };
    chosen(alloc, &files, &apart)
}

// What is reached from the root and the orphans.
fn in_reach(alloc: Global, saved: &Saved) -> Result<IdSet, Memory>
    ensures { IfOk result (λ reached. (object : IdValue) →
        Contains reached object ↔ IsInReachIn (tables_view saved.now) object) }
{
    let tops = tops(alloc, saved)?;
    let reached = reached(alloc, &saved.entries, &tops)?;
    Ok(IdSet::of(reached))
}

// The root and the orphans.
fn tops(alloc: Global, saved: &Saved) -> Result<Vec<Id>, Memory>
    ensures { IfOk result (λ tops. (top : IdValue) → Contains tops.items top
        ↔ ((top ≡ RootValue) ⊎ IsOrphanIn saved.now.entries saved.now.files top)) }
{
    let orphans = ficus_orphan::orphans(alloc, &saved.entries, &saved.files)?;
    let mut tops = Vec::new(alloc);
    tops.push(ROOT)?;
    for orphan in &orphans {
        tops.push(orphan.id)?;
    }
    Ok(tops)
}

// The directories that are named and not reached.
#[derive(Clone, Copy)]
struct Apart<'a> {
    named: &'a IdSet,
    reached: &'a IdSet,
}

impl<'a> Choice for Apart<'a> {
    ghost use Rattle.ficus_deciding.specs.Chosen.{IsApart};

    ghost Chooses = { λ choice file. IsApart choice.named.now choice.reached.now file };

    fn chooses(&self, file: &FileReplica) -> bool {
        file.kind == Kind::Dir && self.named.has(file.id) && !self.reached.has(file.id)
    }
}
