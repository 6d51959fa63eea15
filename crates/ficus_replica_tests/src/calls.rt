ghost use Rattle.ficus_durable_state.specs.Saved.{FitsImage};

use crate::fault::Fault;
use crate::makes::{entry_path, new_path};
use crate::steps::may_save;
use ficus_ids::{Id, Refusal};
use ficus_merge_files::{merge_files, merge_fits};
use ficus_path::{Path, read_path};
use ficus_replica::Replica;
use std::alloc::Global;

/// A call that looks.
#[derive(Clone, Copy, Debug)]
pub(crate) enum Looking {
    Tree,
    ConflictingFiles,
    Orphans,
    Detached,
    Marks,
    VersionsOfFile,
    /// The bytes of the text of the symbolic link `/f`.
    TextOfLink,
    /// What its files make together with themselves.
    MergedFiles,
}

/// How many items it tells.
pub(crate) fn told(alloc: Global, replica: &Replica, look: Looking) -> Result<usize, Fault>
    requires { FitsImage replica.now.saved }
{
    let path = read_path(alloc, b"/f")?;
    told_of(alloc, replica, look, &path)
}

// The same, of the object at this path where it is of one.
fn told_of(alloc: Global, replica: &Replica, look: Looking, path: &Path) -> Result<usize, Fault>
    requires { FitsImage replica.now.saved }
{
    Ok(match look {
        Looking::Tree => replica.tree(alloc)?.len(),
        Looking::ConflictingFiles => replica.conflicts(alloc)?.files.items().len(),
        Looking::Orphans => replica.orphans(alloc)?.len(),
        Looking::Detached => replica.detached(alloc)?.len(),
        Looking::Marks => replica.marks(alloc)?.len(),
        Looking::VersionsOfFile => replica.versions(alloc, path)?.len(),
        Looking::TextOfLink => replica.readlink(alloc, path)?.len(),
        Looking::MergedFiles => merged(alloc, replica)?,
    })
}

// How many files those of the replica make together with themselves.
fn merged(alloc: Global, replica: &Replica) -> Result<usize, Fault> {
    let (entries, files) = replica.tables();
    if !merge_fits(files, files) {
        return Err(Fault::Unfit);
    }
    Ok(merge_files(alloc, files, files, entries)?.len())
}

/// A call that changes: of the file `/f`, or of the orphan `1.1`, or it makes the symbolic link `/g`.
#[derive(Clone, Copy, Debug)]
pub(crate) enum Changing {
    Symlink,
    Link,
    Rename,
    Remove,
    Settle,
    Resolve,
    Adopt,
    Discard,
}

/// Why it is refused, where it is.
pub(crate) fn refused(
    alloc: Global,
    replica: &Replica,
    change: Changing,
) -> Result<Option<Refusal>, Fault>
    requires { FitsImage replica.now.saved }
{
    let file = entry_path(alloc, b"/f")?;
    let path = new_path(alloc, b"/g")?;
    let orphan = Id {
        replica: 1,
        number: 1,
    };
    may_save(replica)?;
    let answer = match change {
        Changing::Symlink => replica.symlink(alloc, &path, b"n"),
        Changing::Link => replica.link(alloc, &file, &path),
        Changing::Rename => replica.rename(alloc, &file, &path),
        Changing::Remove => replica.remove(alloc, &file),
        Changing::Settle => replica.settle(alloc, &file, b"n"),
        Changing::Resolve => replica.resolve(alloc, &file),
        Changing::Adopt => replica.adopt(alloc, orphan, &path),
        Changing::Discard => replica.discard(alloc, orphan),
    };
    Ok(answer.err())
}
