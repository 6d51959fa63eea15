// The folders above a file, the nearest first.
ghost use Rattle.std.specs.Prelude.{◌≡◌, ◌≤◌, ◌++◌, length, map, option_copied, IfOk, OnOk, OnErr};
ghost use Rattle.std.specs.Path.{path_parent};
ghost use Rattle.ficus_file_disk.specs.Told.{AreRefused, FolderSynced, folders_above, folders_made, looked, named};

use crate::system::System;
use std::io;
use std::path::Path;

// The folder above.
fn parent_of(path: &str) -> Option<&str>
    ensures { option_copied result ≡ path_parent path.now }
{
    match Path::new(path).parent() {
        Some(folder) => Some(folder.as_os_str()),
        None => None,
    }
}

// The folder above a path of one part has no name.
fn named(folder: &str) -> &str
    ensures { result.now ≡ named folder.now }
{
    if folder.is_empty() { "." } else { folder }
}

/// How many of the folders above the file are missing.
#[tactic(auto, using(crate::proofs::Above::above_is_shorter))]
pub(crate) fn count_missing<S: System>(system: &mut S, path: &str) -> io::Result<usize>
    ensures within { IfOk result (λ count. count ≤ length path.now) }
    ensures told { S.tells → IfOk result (λ count. S.told system.new ≡ S.told system.old ++ looked count path.now) }
    ensures refused { S.tells → OnErr result (AreRefused (S.told system.old) (S.told system.new)) }
{
    match parent_of(path) {
        Some(folder) => {
            if system.has_folder(named(folder))? {
                Ok(0)
            } else {
                let _fits = path.len();
                Ok(count_missing(system, folder)? + 1)
            }
        }
        None => Ok(0),
    }
}

/// Makes the folder of the file, and those above it that are missing.
pub(crate) fn make<S: System>(system: &mut S, path: &str) -> io::Result<()>
    ensures told { S.tells → OnOk result (S.told system.new ≡ S.told system.old ++ folders_made path.now) }
    ensures refused { S.tells → OnErr result (AreRefused (S.told system.old) (S.told system.new)) }
{
    match parent_of(path) {
        Some(folder) => system.make_folder(named(folder)),
        None => Ok(()),
    }
}

/// Syncs so many of the folders above the file.
pub(crate) fn sync<S: System>(system: &mut S, path: &str, count: usize) -> io::Result<()>
    ensures told { S.tells → OnOk result (S.told system.new
        ≡ S.told system.old ++ map FolderSynced (folders_above count path.now)) }
    ensures refused { S.tells → OnErr result (AreRefused (S.told system.old) (S.told system.new)) }
{
    if count == 0 {
        return Ok(());
    }
    match parent_of(path) {
        Some(folder) => {
            system.sync_folder(named(folder))?;
            sync(system, folder, count - 1)
        }
        None => Ok(()),
    }
}
