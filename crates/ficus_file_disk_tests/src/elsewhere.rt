// Disks that stand in for those of members that are elsewhere.
use ficus_disk::{Disk, Pair};
use ficus_faults::Failed;
use ficus_file_disk::FileDisk;
use ficus_here_or_away::pairs_for;
use std::test::Fail;

#[test]
fn disks_in_memory_stand_in_for_those_elsewhere(rt: HostRuntime) -> Result<(), Fail> {
    let own = Pair {
        a: FileDisk::new(rt, String::from_str(rt.alloc(), "elsewhere/a")?),
        b: FileDisk::new(rt, String::from_str(rt.alloc(), "elsewhere/b")?),
    };
    let mut pairs = pairs_for(rt.alloc(), own, 3)?;
    assert!(rt; !pairs[2].a.fused() && !pairs[2].b.fused());
    let away = &mut pairs[7].a;
    assert!(rt; away.fused());
    let mut into = [0; 2];
    away.reserve(4)?;
    assert!(rt; away.read(0, &mut into) == Err(Failed));
    assert!(rt; away.write(1, &[1, 2]) == Err(Failed));
    assert!(rt; away.size() == Ok(0));
    assert!(rt; away.write(0, &[1, 2]) == Ok(()));
    assert!(rt; away.again() == Ok(()));
    assert!(rt; away.read(1, &mut into) == Err(Failed));
    assert!(rt; away.read(0, &mut into) == Ok(()));
    assert!(rt; into == [1, 2]);
    Ok(())
}
