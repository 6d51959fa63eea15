// How a file that came is read.
ghost use Rattle.std.specs.Prelude.{◌≡◌, length, IfOk, IsErrOf};
ghost use Rattle.ficus_file_disk.specs.Told.{AreRefused};
ghost use Rattle.ficus_folder_mailbox.specs.Mail.{IsLookedUp, IsRead};
ghost use Rattle.ficus_mailbox.specs.Calls.{IsWithin};

use ficus_file_disk::System;
use ficus_ids::{Listed, Memory};
use ficus_mailbox::{FindFault, Found, LETTER_LIMIT};
use std::alloc::Global;
use std::io::ErrorKind;

/// What the file at the path has. Of one that is larger than a message nothing is read.
pub(crate) fn look_up<S: System>(
    alloc: Global,
    system: &mut S,
    path: &str,
) -> Result<Found, FindFault>
    ensures within { IfOk result IsWithin }
    ensures told { S.tells → IfOk result (IsLookedUp path.now (S.told system.old) (S.told system.new)) }
    ensures refused { S.tells → IsErrOf result FindFault.Failed → AreRefused (S.told system.old) (S.told system.new) }
{
    match system.open_to_read(path) {
        Ok(file) => read_whole(alloc, system, file),
        Err(error) if error.kind() == ErrorKind::NotFound => Ok(Found::Nothing),
        Err(_) => Err(FindFault::Failed),
    }
}

// What the open file has.
fn read_whole<S: System>(alloc: Global, system: &mut S, file: S::File) -> Result<Found, FindFault>
    ensures within { IfOk result IsWithin }
    ensures told { S.tells → IfOk result (IsRead (S.told system.old) (S.told system.new)) }
    ensures refused { S.tells → IsErrOf result FindFault.Failed → AreRefused (S.told system.old) (S.told system.new) }
{
    let mut file = file;
    let Ok(size) = system.measure(&file) else {
        return Err(FindFault::Failed);
    };
    if size > LETTER_LIMIT as u64 {
        return Ok(Found::Oversized);
    }
    let mut bytes = zeros(alloc, size as usize)?;
    match system.fill(&mut file, &mut bytes) {
        Ok(()) => Ok(Found::Bytes(Listed::of(bytes))),
        Err(_) => Err(FindFault::Failed),
    }
}

// So many bytes.
fn zeros(alloc: Global, count: usize) -> Result<Vec<u8>, Memory>
    ensures { IfOk result (λ bytes. length bytes.items ≡ count) }
{
    Ok(vec![in alloc; 0; count]?)
}
