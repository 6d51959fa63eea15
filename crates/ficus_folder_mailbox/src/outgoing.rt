// How a file is written, so that none is seen in part.
ghost use Rattle.std.specs.Prelude.{◌≡◌, ◌++◌, ◌∷◌, [], OnErr, OnOk};
ghost use Rattle.ficus_file_disk.specs.Told.{AreRefused, Emptied, FolderMade, FolderSynced, Renamed, Synced, Took};

use ficus_file_disk::System;
use std::io;

/// Makes a folder, and syncs the one above it, in which it lies.
pub(crate) fn make_folder<S: System>(system: &mut S, folder: &str, above: &str) -> io::Result<()>
    ensures told { S.tells → OnOk result (S.told system.new
        ≡ S.told system.old ++ FolderMade folder.now ∷ FolderSynced above.now ∷ []) }
    ensures refused { S.tells → OnErr result (AreRefused (S.told system.old) (S.told system.new)) }
{
    system.make_folder(folder)?;
    system.sync_folder(above)
}

/// Writes a file beside its place and syncs it, then gives it its place, and syncs the folder.
pub(crate) fn write_whole<S: System>(
    system: &mut S,
    folder: &str,
    beside: &str,
    place: &str,
    message: &[u8],
) -> io::Result<()>
    ensures told { S.tells → OnOk result (S.told system.new ≡ S.told system.old ++ Emptied beside.now
        ∷ Took message.now ∷ Synced ∷ Renamed beside.now place.now ∷ FolderSynced folder.now ∷ []) }
    ensures refused { S.tells → OnErr result (AreRefused (S.told system.old) (S.told system.new)) }
{
    write_synced(system, beside, message)?;
    system.rename(beside, place)?;
    system.sync_folder(folder)
}

// Writes a file of these bytes, and syncs and closes it.
fn write_synced<S: System>(system: &mut S, path: &str, message: &[u8]) -> io::Result<()>
    ensures told { S.tells → OnOk result (S.told system.new
        ≡ S.told system.old ++ Emptied path.now ∷ Took message.now ∷ Synced ∷ []) }
    ensures refused { S.tells → OnErr result (AreRefused (S.told system.old) (S.told system.new)) }
{
    let mut file = system.make_empty(path)?;
    system.put(&mut file, message)?;
    system.sync(&file)
}
