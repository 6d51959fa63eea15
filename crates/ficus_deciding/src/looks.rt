ghost use Rattle.ficus_durable_state.specs.Saved.{FitsImage};
ghost use Rattle.ficus_rules.specs.Look.{LookRule};
ghost use Rattle.ficus_rules.specs.Rule.{UnlessMemory};
ghost use Rattle.ficus_deciding.specs.View.{tables_view};

use crate::all_versions::versions;
use crate::clashing::conflicts;
use crate::listing::list;
use crate::orphanage::{detached, orphans};
use crate::reading::read;
use crate::reading_link::readlink;
use crate::removed::marks;
use crate::whole_tree::tree;
use ficus_commands::{Look, Told};
use ficus_durable_state::Saved;
use ficus_ids::{Listed, Refusal};
use std::alloc::Global;

/// What the look tells, or why it is refused.
pub fn look(alloc: Global, saved: &Saved, look: &Look) -> Result<Told, Refusal>
    requires { FitsImage saved.now }
    ensures { UnlessMemory (LookRule (tables_view saved.now) look.now) result }
{
    match look {
        Look::Ls { path } => Ok(Told::Names(Listed::of(list(alloc, saved, path)?))),
        Look::Read { path } => Ok(Told::Text(Listed::of(read(alloc, saved, path)?))),
        Look::Versions { path } => Ok(Told::Versions {
            members: saved.members,
            list: Listed::of(versions(alloc, saved, path)?),
        }),
        Look::ReadLink { path } => Ok(Told::Text(Listed::of(readlink(alloc, saved, path)?))),
        Look::Tree => Ok(Told::Tree(Listed::of(tree(alloc, saved)?))),
        Look::Conflicts => Ok(Told::Conflicts(conflicts(alloc, saved)?)),
        Look::Orphans => Ok(Told::Orphans(Listed::of(orphans(alloc, saved)?))),
        Look::Detached => Ok(Told::Detached(Listed::of(detached(alloc, saved)?))),
        Look::Marks => Ok(Told::Marks(Listed::of(marks(alloc, saved)?))),
    }
}
