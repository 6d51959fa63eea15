ghost use Rattle.ficus_durable_state.specs.Saved.{FitsImage};
ghost use Rattle.ficus_commands.specs.Change.{HasFitPaths};
ghost use Rattle.ficus_rules.specs.Change.{ChangeAnswer};
ghost use Rattle.ficus_deciding.specs.View.{tables_view};

use crate::adopting::adopt;
use crate::discarding::discard;
use crate::linking::link;
use crate::making::make;
use crate::removing::remove;
use crate::renaming::rename;
use crate::resolving::resolve;
use crate::settling::settle;
use crate::symlinking::symlink;
use crate::writing::write;
use ficus_commands::Change;
use ficus_durable_state::Saved;
use ficus_ids::{Kind, Refusal};
use ficus_model::Op;
use std::alloc::Global;

/// Which operation the change is, or why it is refused.
pub fn change(alloc: Global, saved: &Saved, change: &Change) -> Result<Op, Refusal>
    requires fits { FitsImage saved.now }
    requires paths { HasFitPaths change.now }
    ensures { ChangeAnswer (tables_view saved.now) change.now result }
{
    match change {
        Change::MkDir { path } => make(alloc, saved, path, Kind::Dir),
        Change::Create { path, kind } => make(alloc, saved, path, *kind),
        Change::Symlink { path, text } => symlink(alloc, saved, path, text.items()),
        Change::Write { path, text } => write(alloc, saved, path, text.items()),
        Change::Settle { path, text } => settle(alloc, saved, path, text.items()),
        Change::Resolve { path } => resolve(alloc, saved, path),
        Change::Rm { path } => remove(saved, path),
        Change::Ln { from, path } => link(saved, from, path),
        Change::Mv { from, path } => rename(alloc, saved, from, path),
        Change::Adopt { orphan, path } => adopt(alloc, saved, *orphan, path),
        Change::Discard { orphan } => discard(saved, *orphan),
    }
}
