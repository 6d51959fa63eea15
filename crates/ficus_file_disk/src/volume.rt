ghost use Rattle.std.specs.Prelude.{◌≡◌, IfOk, length, map};
ghost use Rattle.ficus_file_disk.specs.Place.{all_places, places_in, places_of};

use crate::FileDisk;
use ficus_disk::Pair;
use ficus_ids::Memory;
use std::alloc::Global;
use std::rt::Files;

/// The disks of so many replicas in the folder of a volume: over the files `ROOT/r/a.img` and `ROOT/r/b.img`, for r
/// from 1. No file is touched.
pub fn disks_in<R: Files + Copy + Clone + Drop>(
    rt: R,
    alloc: Global,
    root: &str,
    count: u8,
) -> Result<Vec<Pair<FileDisk<R>>>, Memory>
    ensures places { IfOk result (λ disks. map places_of disks.items ≡ all_places root.now count) }
    ensures count { IfOk result (λ disks. length disks.items ≡ count) }
{
    let mut disks = Vec::new(alloc);
    for before in 0..count {
        disks.push(pair_in(rt, alloc, root, before + 1)?)?;
    }
    Ok(disks)
}

// The disks of one replica.
fn pair_in<R: Files + Copy + Clone + Drop>(
    rt: R,
    alloc: Global,
    root: &str,
    replica: u8,
) -> Result<Pair<FileDisk<R>>, Memory>
    ensures { IfOk result (λ pair. places_of pair ≡ places_in root.now replica) }
{
    Ok(Pair {
        a: FileDisk::new(rt, format!(in alloc; "{root}/{replica}/a.img")?),
        b: FileDisk::new(rt, format!(in alloc; "{root}/{replica}/b.img")?),
    })
}
