ghost use Rattle.std.specs.Prelude.{◌≡◌, ◌+◌, ◌-◌, ◌^◌, ◌<◌, ◌≤◌, List, ◌∷◌, [], ◌++◌, None};

use ficus_durable_state::Saved;
use ficus_entry::Entries;
use ficus_file::Files;
use ficus_ids::Members;
use ficus_model::Op;
use std::alloc::Global;

/// An ask that waits for its answer.
#[derive(Clone, Copy, PartialEq, Eq)]
pub struct Asked {
    /// The replica that was asked.
    pub to: u8,
    /// The generation with which the ask was saved.
    pub number: u64,
}

/// One replica: what it saves, and its open ask, which doesn't outlive a restart.
#[derive(Drop)]
pub struct Replica {
    pub saved: Saved,
    pub ask: Option<Asked>,
}

/// An update that may take place: the replica after it, and what it does.
#[derive(Drop)]
pub struct Next {
    pub replica: Replica,
    pub op: Op,
}

impl Replica {
    ghost use Rattle.ficus_ids.specs.Members.{IsMember};
    ghost use Rattle.ficus_durable_state.specs.Saved.{FitsImage};
    ghost use Rattle.ficus_durable_state.specs.Limits.{update_limit, byte_limit};
    ghost use Rattle.ficus_model.specs.Lawful.{Volume};
    ghost use Rattle.ficus_model.specs.declared.event.Event.{Event};
    ghost use Rattle.ficus_model.specs.declared.event.Event.TheVariants.{Restart};
    ghost use Rattle.ficus_replica.specs.SavedOf.{IsSavedOf, StandsFor, fresh_saved};

    /// A replica that has heard of nothing. Takes no memory.
    pub fn fresh(alloc: Global, me: u8, members: Members, ids: u32, bytes: u32) -> Replica
        requires me { IsMember members me }
        requires ids_at_least { 1 ≤ ids }
        requires ids_at_most { ids ≤ update_limit }
        requires bytes { bytes ≤ byte_limit }
        ensures saved { result.saved ≡ fresh_saved (record { members = members; ids = ids; bytes = bytes }) me }
        ensures ask { result.ask ≡ None }
        ensures fits { FitsImage result.saved }
        ensures stands { StandsFor (record { members = members; ids = ids; bytes = bytes }) [] me result }
    {
        let _count = members.count();
        Replica::open(Saved {
            me,
            members,
            ids,
            bytes,
            next: 1,
            used: 0,
            generation: 0,
            entries: Entries::new(alloc),
            files: Files::new(alloc),
        })
    }

    /// A replica as it was saved. Opening is a restart, so there is no open ask. Takes no memory.
    pub fn open(saved: Saved) -> Replica
        ensures saved { result.saved ≡ saved }
        ensures ask { result.ask ≡ None }
        ensures stands { (volume : Volume) (H : List Event) → IsSavedOf volume H saved.me saved
            → StandsFor volume (H ++ Restart saved.me ∷ []) saved.me result }
    {
        Replica { saved, ask: None }
    }

    /// What is saved next, with these tables and no further update.
    pub(crate) fn saved_with(&self, entries: Entries, files: Files) -> Saved
        requires { self.now.saved.generation < 2 ^ 63 - 1 }
        ensures { result ≡ record self.now.saved {
          generation = self.now.saved.generation + 1;
          entries = entries;
          files = files;
        } }
    {
        Saved {
            generation: self.saved.generation + 1,
            entries,
            files,
            ..self.saved
        }
    }
}
