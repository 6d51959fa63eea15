// The world of one member alone: it acts, a message is heard and taken, and what it posts has bytes.
ghost use Rattle.std.specs.Prelude.{◌≡◌, ◌<◌, length, IfOk};
ghost use Rattle.ficus_world.specs.Disks.{IsBacked};
ghost use Rattle.ficus_world.specs.World.{event_limit};

use ficus_disk::{Disk, MemDisk, Pair, fresh_disks};
use ficus_ids::Members;
use ficus_journal::Journal;
use ficus_keeper::Keep;
use ficus_outside::{Link, MemLink};
use ficus_script::{Answer, Command};
use ficus_world::machines::{act, take};
use ficus_world::{DEFAULT_BYTES, DEFAULT_IDS, World};
use std::alloc::Global;
use std::test::Fail;

type Alone = World<Journal, MemLink>;

// The ask of member 2 to member 1, with number 1.
const ASK: [u8; 12] = [2, 1, 2, 1, 0, 0, 0, 0, 0, 0, 0, 1];

// The pairs of eight members, of which the first is that of a fresh volume of two, and the others hold nothing.
fn disks_of_one(alloc: Global) -> Result<Vec<Pair<MemDisk>>, Fail>
    ensures { IfOk result (λ disks. length disks.items ≡ 8) }
{
    let members = Members::new(2).ok_or("two members")?;
    let mut made = fresh_disks(alloc)?;
    let is_made = Alone::make(alloc, &mut made, members, DEFAULT_IDS, DEFAULT_BYTES);
    is_made.map_err(|_| "no volume was made")?;
    let mut disks = fresh_disks(alloc)?;
    if made.is_empty() {
        return Err("eight pairs of disks".into());
    }
    disks[0] = made.swap_remove(0);
    Ok(disks)
}

// Whether it collects, which gives up nothing.
fn collects<P: Keep + Drop, L: Link + Drop, D: Disk>(
    alloc: Global,
    world: &mut World<P, L>,
    disks: &mut Vec<Pair<D>>,
) -> Result<bool, Fail>
    requires backed { IsBacked P.Keep D.Disk world.old disks.old.items }
    requires room { length world.old.whole.events < event_limit }
{
    let answer = act(alloc, world, disks, &Command::Collect { by: 1 })?;
    Ok(matches!(
        answer,
        Answer::Collected {
            entries: 0,
            files: 0
        }
    ))
}

// Whether it serves the ask, which it hears, by one message that has bytes.
fn serves<P: Keep + Drop, L: Link + Drop, D: Disk>(
    alloc: Global,
    world: &mut World<P, L>,
    disks: &mut Vec<Pair<D>>,
) -> Result<bool, Fail>
    requires backed { IsBacked P.Keep D.Disk world.old disks.old.items }
    requires room { length world.old.whole.events < event_limit }
{
    let heard = take(alloc, world, disks, ASK.to_vec(alloc)?);
    let answer = heard.map_err(|_| "the ask was refused")?;
    let posted = world.message(2).map_err(|_| "no message")?;
    Ok(matches!(answer, Answer::Mail(2)) && posted.len() > 12)
}

// Whether it does one of the two, opened anew.
fn does(alloc: Global, serve: bool) -> Result<bool, Fail> {
    let mut disks = disks_of_one(alloc)?;
    let opened = Alone::open_alone(alloc, &mut disks, 1, MemLink::new(alloc));
    let mut world = opened.map_err(|_| "no world was opened")?;
    if serve {
        serves(alloc, &mut world, &mut disks)
    } else {
        collects(alloc, &mut world, &mut disks)
    }
}

#[test]
fn one_member_alone_acts_and_serves(rt: HostRuntime) -> Result<(), Fail> {
    let alloc = rt.alloc();
    let collected = does(alloc, false)?;
    let served = does(alloc, true)?;
    assert!(rt; collected && served);
    Ok(())
}
