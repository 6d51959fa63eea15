// What tests do with a disk.
use ficus_disk::Disk;
use ficus_faults::Failed;
use ficus_ids::Memory;

/// A call that changes a disk. Writes begin at its start.
#[derive(Clone, Copy)]
pub enum Step {
    Write(&'static [u8]),
    Sync,
    Again,
}

/// What the step comes to, with its room reserved first.
pub fn does<D: Disk>(disk: &mut D, step: Step) -> Result<Result<(), Failed>, Memory> {
    match step {
        Step::Write(bytes) => {
            disk.reserve(bytes.len() as u64)?;
            Ok(disk.write(0, bytes))
        }
        Step::Sync => Ok(disk.sync()),
        Step::Again => Ok(disk.again()),
    }
}

/// How many of the steps are done, up to the first that fails.
pub fn done<D: Disk>(disk: &mut D, steps: &[Step]) -> Result<usize, Memory> {
    for (count, step) in steps.iter().enumerate() {
        if does(disk, *step)?.is_err() {
            return Ok(count);
        }
    }
    Ok(steps.len())
}

/// Whether a read of the whole disk gives these bytes, of which there are 8 at most.
pub fn holds<D: Disk>(disk: &mut D, bytes: &[u8]) -> bool {
    let mut found = [0; 8];
    if bytes.len() > found.len() || disk.size() != Ok(bytes.len() as u64) {
        return false;
    }
    let into = &mut found[..bytes.len()];
    disk.read(0, into) == Ok(()) && &*into == bytes
}
