// Calls of a disk with what each answers.
use ficus_disk::Disk;
use ficus_faults::Failed;
use ficus_file_disk::{System, SystemDisk};
use std::alloc::{AllocError, Global};

/// A call, and what it answers.
#[derive(Clone, Copy, PartialEq)]
pub enum Call {
    Size(Result<u64, Failed>),
    /// Three bytes from this place on.
    Read(u32, Result<[u8; 3], Failed>),
    Write(u32, &'static [u8], Result<(), Failed>),
    Sync(Result<(), Failed>),
    Again(Result<(), Failed>),
}

impl Call {
    /// Makes this call of the disk: the call with the answer that the disk gives now, in place of its own.
    pub fn made<S: System + Drop>(self, disk: &mut SystemDisk<S>) -> Call {
        match self {
            Call::Size(_) => Call::Size(disk.size()),
            Call::Read(at, _) => {
                let mut into = [0; 3];
                let answer = disk.read(at.into(), &mut into);
                Call::Read(at, answer.map(|()| into))
            }
            Call::Write(at, bytes, _) => Call::Write(at, bytes, disk.write(at.into(), bytes)),
            Call::Sync(_) => Call::Sync(disk.sync()),
            Call::Again(_) => Call::Again(disk.again()),
        }
    }

    /// This call, with a fault in place of its answer.
    pub fn failed(self) -> Call {
        match self {
            Call::Size(_) => Call::Size(Err(Failed)),
            Call::Read(at, _) => Call::Read(at, Err(Failed)),
            Call::Write(at, bytes, _) => Call::Write(at, bytes, Err(Failed)),
            Call::Sync(_) => Call::Sync(Err(Failed)),
            Call::Again(_) => Call::Again(Err(Failed)),
        }
    }
}

/// 5 MiB, more than what is read or written at once elsewhere.
const LENGTH: usize = 5 * 1024 * 1024;

/// So many bytes, of which none is as its neighbour.
pub fn long_piece(alloc: Global) -> Result<Vec<u8>, AllocError> {
    let mut piece = vec![in alloc; 0u8; LENGTH]?;
    for (place, byte) in piece.iter_mut().enumerate() {
        *byte = (place % 251) as u8;
    }
    Ok(piece)
}

/// Whether the disk gives these bytes from its start on, once it has taken them and synced them.
pub fn takes<S: System + Drop>(disk: &mut SystemDisk<S>, piece: &[u8], into: &mut [u8]) -> bool {
    disk.write(0, piece) == Ok(())
        && disk.sync() == Ok(())
        && disk.size() == Ok(piece.len() as u64)
        && disk.read(0, into) == Ok(())
        && &*into == piece
}
