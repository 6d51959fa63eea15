ghost use Rattle.std.specs.Prelude.{◌≡◌, ◌-◌, ◌<◌, ◌≤◌, ◌++◌, List, length, slice_set};
ghost use Rattle.ficus_ids.specs.Members.{IsMember};
ghost use Rattle.ficus_model.specs.declared.event.Event.{Event as EventValue};
ghost use Rattle.ficus_runs.specs.Numbered.{IsNumbered};
ghost use Rattle.ficus_opening.specs.declared.member.Member.{Member as MemberValue};
ghost use Rattle.ficus_world.specs.Disks.{ComesBack, IsBacked};
ghost use Rattle.ficus_world.specs.World.{event_limit};
ghost use Rattle.ficus_world.specs.Calls.{Restarts};

use crate::World;
use crate::member::{Rising, rise, stay_down};
use crate::pairs::reopen_at;
use ficus_disk::{Disk, Pair};
use ficus_durable_state::Saved;
use ficus_ids::Refusal;
use ficus_keeper::{Keep, StoreFault};
use ficus_model::{Event, History};
use ficus_opening::Member;
use ficus_outside::Link;
use ficus_script::Answer;
use std::alloc::Global;

impl<K: Keep + Drop, L: Link + Drop> World<K, L> {
    /// Restarts a member: its disks are opened again, and what they hold decides whether what was pending has happened.
    /// It no longer waits for an answer. All memory is taken before anything changes.
    pub(crate) fn restart<D: Disk>(
        &mut self,
        alloc: Global,
        disks: &mut Vec<Pair<D>>,
        by: u8,
    ) -> Result<Answer, Refusal>
        requires room { length self.old.whole.events < event_limit }
        requires backed { IsBacked K.Keep D.Disk self.old disks.old.items }
        ensures { Restarts L.tells K.Keep D.Disk by result self.old self.new disks.old.items disks.new.items }
    {
        if !self.group.has(by) {
            return Err(Refusal::Member);
        }
        self.group.history.reserve(2)?;
        let read = reopen_at(alloc, &mut self.stables, disks, by);
        come_back(&mut self.group.members, &mut self.group.history, by, read)
    }
}

// A member whose disks were opened again comes up with what was read of them, or it is down.
fn come_back(
    members: &mut Vec<Member>,
    history: &mut History,
    by: u8,
    read: Result<Saved, StoreFault>,
) -> Result<Answer, Refusal>
    requires member { IsMember (length members.old.items) by }
    requires room { 2 ≤ history.old.room }
    requires few { length history.old.events < event_limit }
    ensures { (was : MemberValue) → IsNumbered members.old.items by was
        → (now : MemberValue) × (stored : List EventValue) × ComesBack by was read result now stored
        × (members.new.items ≡ slice_set members.old.items (by - 1) now)
        × (history.new.events ≡ history.old.events ++ stored) }
{
    match read {
        Ok(read) => match rise(members, by, read) {
            Rising::AsWas => {
                history.push(Event::Restart { by });
                Ok(Answer::Done)
            }
            Rising::AsPending(event) => {
                history.push(event);
                history.push(Event::Restart { by });
                Ok(Answer::Done)
            }
            Rising::Neither => Err(Refusal::Image),
        },
        Err(fault) => match fault {
            StoreFault::Memory => Err(Refusal::Memory),
            StoreFault::NoImage => {
                stay_down(members, by);
                Err(Refusal::Image)
            }
            StoreFault::Failed => {
                stay_down(members, by);
                Err(Refusal::Store)
            }
        },
    }
}
