use crate::Replica;
use ficus_collection::reclaim;
use ficus_ids::Memory;
use std::alloc::Global;

/// A collection that took place: the replica after it, and how much it gave up.
#[derive(Drop)]
pub struct Collected {
    /// The replica after it.
    pub replica: Replica,
    /// How many removed entries were given up.
    pub entries: u32,
    /// How many files and directories were given up.
    pub files: u32,
}

impl Replica {
    ghost use Rattle.std.specs.Prelude.{◌-◌, ◌^◌, ◌<◌, List, IfOk};
    ghost use Rattle.ficus_durable_state.specs.Saved.{FitsImage};
    ghost use Rattle.ficus_model.specs.Lawful.{Volume, IsLawful};
    ghost use Rattle.ficus_model.specs.declared.event.Event.{Event};
    ghost use Rattle.ficus_replica.specs.Collect.{CollectGives, CollectStands, HoldsNoGarbage};
    ghost use Rattle.ficus_replica.specs.Makes.{IsNoted};
    ghost use Rattle.ficus_replica.specs.SavedOf.{StandsFor};
    ghost use Rattle.ficus_record.specs.declared.record.Record.TheVariants.{Collect as Noted};

    /// Gives up the removed entries of which everybody is known to know that all know, and then the files and
    /// directories that no entry which is left names or lies in and that are no orphans. The open ask stays. It takes
    /// one walk over all that is held.
    pub fn collect(&self, alloc: Global) -> Result<Collected, Memory>
        requires fits { FitsImage self.now.saved }
        requires generation { self.now.saved.generation < 2 ^ 63 - 1 }
        ensures gives { IfOk result (CollectGives self.now) }
        ensures fits { IfOk result (λ collected. FitsImage collected.replica.saved) }
        ensures no_garbage { IfOk result (λ collected. HoldsNoGarbage collected.replica.saved.members
            collected.replica.saved.entries collected.replica.saved.files) }
        ensures noted { IfOk result (λ collected. IsNoted self.now.saved Noted collected.replica.saved) }
        ensures stands { (volume : Volume) (H : List Event) → IsLawful volume H
            → StandsFor volume H self.now.saved.me self.now
            → IfOk result (CollectStands volume H self.now.saved.me) }
    {
        let saved = &self.saved;
        let orphans = ficus_orphan::orphans(alloc, &saved.entries, &saved.files)?;
        let reclaimed = reclaim(alloc, &saved.entries, &saved.files, &orphans, saved.members)?;
        Ok(Collected {
            replica: Replica {
                saved: self.saved_with(reclaimed.entries, reclaimed.files),
                ask: self.ask,
            },
            entries: reclaimed.dropped_entries,
            files: reclaimed.dropped_files,
        })
    }
}
