ghost use Rattle.std.specs.Prelude.{◌≡◌, ◌↔◌, ◌+◌, [], ◌∷◌, ◌++◌, Err, None, true, length, IfOk, IsTrue, OnOk};
ghost use Rattle.ficus_opening.specs.Check.Judged.{IsOfVolume};
ghost use Rattle.ficus_ids.specs.Members.{IsMember};
ghost use Rattle.ficus_runs.specs.Numbered.{IsNumbered};
ghost use Rattle.ficus_opening.specs.Calls.{AreOpenedOn, OpensMember, OpensMembers, OpensNext};
ghost use Rattle.ficus_opening.specs.Disks.{are_fused};
ghost use Rattle.ficus_opening.specs.Fault.{told_of};
ghost use Rattle.ficus_opening.specs.Opening.{opened_member};
ghost use Rattle.ficus_opening.specs.declared.member.Member.{Member as MemberValue};

use crate::WorldFault;
use crate::check::{is_of_volume, open_own};
use crate::member::{Member, MemberState};
use ficus_disk::{Disk, Pair};
use ficus_durable_state::Saved;
use ficus_ids::Memory;
use ficus_keeper::{Keep, StoreFault};
use ficus_replica::Replica;
use ficus_stable_storage::{Recovered, Stable, one_saved};
use std::alloc::Global;

/// The members that were opened, and the keepers of what they save.
#[derive(Drop)]
pub struct Opened<K: Keep + Drop> {
    pub members: Vec<Member>,
    pub stables: Vec<Stable<K>>,
}

/// Opens the disks of each member, as many as the first one says. It writes no byte to a disk.
pub fn open_all<K: Keep + Drop, D: Disk>(
    alloc: Global,
    disks: &mut Vec<Pair<D>>,
) -> Result<Opened<K>, WorldFault>
    requires pairs { length disks.old.items ≡ 8 }
    ensures { OpensMembers K.Keep D.Disk result disks.old.items disks.new.items }
{
    one_saved();
    let mut opened = none_opened(alloc)?;
    open_next(alloc, &mut opened, disks, 1)?;
    let count = opened.members[0].replica.saved.members.count();
    for before in 1..count {
        open_next(alloc, &mut opened, disks, before + 1)?;
    }
    Ok(opened)
}

/// Room for all members.
pub(crate) fn none_opened<K: Keep + Drop>(alloc: Global) -> Result<Opened<K>, Memory>
    ensures members { IfOk result (λ opened. opened.members.items ≡ []) }
    ensures stables { IfOk result (λ opened. opened.stables.items ≡ []) }
{
    Ok(Opened {
        members: Vec::with_capacity(alloc, 8)?,
        stables: Vec::with_capacity(alloc, 8)?,
    })
}

// Opens the disks of the next member.
fn open_next<K: Keep + Drop, D: Disk>(
    alloc: Global,
    opened: &mut Opened<K>,
    disks: &mut Vec<Pair<D>>,
    number: u8,
) -> Result<(), WorldFault>
    requires next { number ≡ length opened.old.members.items + 1 }
    requires pair { IsMember (length disks.old.items) number }
    requires before { AreOpenedOn K.Keep D.Disk opened.old disks.old.items }
    ensures { OpensNext K.Keep D.Disk number result opened.old opened.new disks.old.items disks.new.items }
{
    let index = usize::from(number) - 1;
    let Recovered { stable, saved } = open_one(alloc, &mut disks[index], number)?;
    if !is_of_their_volume(&opened.members, &saved) {
        one_saved();
        return Err(WorldFault::Image(number));
    }
    let fused = is_fused(&disks[index]);
    enter(opened, stable, saved, fused)?;
    Ok(())
}

// Whether this is of the same volume as what these members saved, of which the first one says what it is.
fn is_of_their_volume(members: &[Member], saved: &Saved) -> bool
    ensures first { members.now ≡ [] → IsTrue result }
    ensures behind { (first : MemberValue) → IsNumbered members.now 1 first
        → IsTrue result ↔ IsOfVolume first.replica.saved saved.now }
{
    match members {
        [first, ..] => is_of_volume(&first.replica.saved, saved),
        [] => true,
    }
}

/// What the disks of one member hold of its own.
pub(crate) fn open_one<K: Keep + Drop, D: Disk>(
    alloc: Global,
    pair: &mut Pair<D>,
    number: u8,
) -> Result<Recovered<K>, WorldFault>
    ensures { OpensMember K.Keep D.Disk number result pair.old pair.new }
{
    match open_own(alloc, pair, number) {
        Ok(found) => Ok(found),
        Err(fault) => Err(told_of(number, fault)),
    }
}

// What is told where the disks of this replica weren't opened. Want of memory, and nothing else, is told as what it is.
fn told_of(number: u8, fault: StoreFault) -> WorldFault
    ensures { result ≡ told_of number fault }
{
    match fault {
        StoreFault::Failed => WorldFault::Store(number),
        StoreFault::NoImage => WorldFault::Image(number),
        StoreFault::Memory => WorldFault::Memory,
    }
}

/// Whether both disks have a fuse.
pub(crate) fn is_fused<D: Disk>(pair: &Pair<D>) -> bool
    ensures { result ≡ are_fused D.armings pair.now }
{
    pair.a.fused() && pair.b.fused()
}

/// Enters a member that is up.
pub(crate) fn enter<K: Keep + Drop>(
    opened: &mut Opened<K>,
    stable: Stable<K>,
    saved: Saved,
    fused: bool,
) -> Result<(), Memory>
    ensures members { OnOk result (opened.new.members.items
        ≡ opened.old.members.items ++ (opened_member saved fused) ∷ []) }
    ensures stables { OnOk result (opened.new.stables.items ≡ opened.old.stables.items ++ stable ∷ []) }
{
    let member = Member {
        replica: Replica::open(saved),
        parts: None,
        state: MemberState::Up,
        fused,
    };
    enter_member(opened, member, stable)
}

/// Enters a member behind the others.
pub(crate) fn enter_member<K: Keep + Drop>(
    opened: &mut Opened<K>,
    member: Member,
    stable: Stable<K>,
) -> Result<(), Memory>
    ensures members { OnOk result (opened.new.members.items ≡ opened.old.members.items ++ member ∷ []) }
    ensures stables { OnOk result (opened.new.stables.items ≡ opened.old.stables.items ++ stable ∷ []) }
{
    opened.members.push(member)?;
    opened.stables.push(stable)?;
    Ok(())
}
