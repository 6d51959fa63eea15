ghost use Rattle.std.specs.Prelude.{◌≡◌, ◌+◌, ◌<◌, ◌≤◌, ℕ, Err, List, length};
ghost use Rattle.ficus_ids.specs.Members.{IsMember};
ghost use Rattle.ficus_model.specs.Events.{actor};
ghost use Rattle.ficus_keeper.specs.Framed.{body_in};
ghost use Rattle.ficus_stable_storage.specs.Leads.Holds.{Leads};
ghost use Rattle.ficus_runs.specs.Numbered.{IsNumbered};
ghost use Rattle.ficus_opening.specs.Disks.{AreDisksOf};
ghost use Rattle.ficus_world.specs.Disks.{IsBacked, IsPreparedAt};
ghost use Rattle.ficus_world.specs.World.{IsSoundNext, IsUpIn, backed_by, event_limit, most_events};
ghost use Rattle.ficus_opening.specs.declared.member.Member.{Member as MemberValue};
ghost use Rattle.ficus_opening.specs.declared.member.MemberState.TheVariants.{Up as IsUp};
ghost use Rattle.ficus_world.specs.Calls.{CommitsNext, SavesMember};

use crate::World;
use crate::group::Group;
use crate::member::{hold, put_down};
use crate::pairs::{commit_at, prepare_at};
use ficus_disk::{Disk, Pair};
use ficus_faults::Failed;
use ficus_ids::Refusal;
use ficus_keeper::Keep;
use ficus_model::History;
use ficus_opening::{Member, Pending};
use ficus_outside::Link;
use ficus_stable_storage::Stable;

impl<K: Keep + Drop, L: Link + Drop> World<K, L> {
    /// Saves what a member that is up is after an event of its own, whose record stands in this frame, and stores the
    /// event. All memory is taken before anything changes. Where the disks fail, the member is down, and the event is
    /// pending.
    pub(crate) fn save<D: Disk>(
        &mut self,
        disks: &mut Vec<Pair<D>>,
        by: u8,
        next: Pending,
        noted: Vec<u8>,
    ) -> Result<(), Refusal>
        requires room { length self.old.whole.events < event_limit + most_events }
        requires backed { IsBacked K.Keep D.Disk self.old disks.old.items }
        requires up { IsUpIn self.old.whole by }
        requires own { actor next.event ≡ by }
        requires next { (was : MemberValue) → IsNumbered self.old.whole.members by was
            → IsSoundNext (length self.old.whole.members) (length self.old.whole.events) by (body_in noted.items)
            was.replica next.replica }
        ensures { SavesMember K.Keep D.Disk by next result self.old self.new disks.old.items disks.new.items }
    {
        self.group.save(&mut self.stables, disks, by, next, noted)
    }
}

impl<L: Link + Drop> Group<L> {
    // The same, over the stables of the members.
    fn save<K: Keep + Drop, D: Disk>(
        &mut self,
        stables: &mut Vec<Stable<K>>,
        disks: &mut Vec<Pair<D>>,
        by: u8,
        next: Pending,
        noted: Vec<u8>,
    ) -> Result<(), Refusal>
        requires room { length self.old.events < event_limit + most_events }
        requires stables { length stables.old.items ≡ length self.old.members }
        requires backed { IsBacked K.Keep D.Disk (backed_by self.old stables.old.items) disks.old.items }
        requires up { IsUpIn self.old by }
        requires own { actor next.event ≡ by }
        requires next { (was : MemberValue) → IsNumbered self.old.members by was
            → IsSoundNext (length self.old.members) (length self.old.events) by (body_in noted.items) was.replica
            next.replica }
        ensures { SavesMember K.Keep D.Disk by next result (backed_by self.old stables.old.items)
            (backed_by self.new stables.new.items) disks.old.items disks.new.items }
    {
        self.history.reserve(1)?;
        prepare_at(stables, disks, by, &next.replica.saved, noted)?;
        commit_next(
            &mut self.members,
            &mut self.history,
            stables,
            disks,
            by,
            next,
        )
    }
}

/// Saves what was prepared, and stores its event; or the member is down, and it is pending. Takes no memory.
pub(crate) fn commit_next<K: Keep + Drop, D: Disk>(
    members: &mut Vec<Member>,
    history: &mut History,
    stables: &mut Vec<Stable<K>>,
    disks: &mut Vec<Pair<D>>,
    by: u8,
    next: Pending,
) -> Result<(), Refusal>
    requires member { IsMember (length members.old.items) by }
    requires stables { length stables.old.items ≡ length members.old.items }
    requires pair { IsMember (length disks.old.items) by }
    requires up { (was : MemberValue) → IsNumbered members.old.items by was → was.state ≡ IsUp }
    requires prepared { (body : List ℕ)
        × IsPreparedAt K.wants_image K.Allows K.size_of D.room stables.old.items disks.old.items by next.replica.saved
        body × ((was : MemberValue) → IsNumbered members.old.items by was
        → Leads body was.replica.saved next.replica.saved) }
    requires room { 1 ≤ history.old.room }
    requires few { length history.old.events < event_limit + most_events }
    requires disks { AreDisksOf K.Keep D.Disk members.old.items stables.old.items disks.old.items }
    ensures { CommitsNext K.Keep D.Disk by next result members.old.items members.new.items history.old.events
        history.new.events stables.old.items stables.new.items disks.old.items disks.new.items }
{
    match commit_at(stables, disks, by, &next.replica.saved) {
        Ok(()) => {
            let Pending { replica, event } = next;
            hold(members, by, replica, &event);
            history.push(event);
            Ok(())
        }
        Err(Failed) => {
            put_down(members, by, next);
            Err(Refusal::Store)
        }
    }
}
