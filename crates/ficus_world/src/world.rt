ghost use Rattle.std.specs.Prelude.{◌≡◌, ◌↔◌, length, IsSome, IfSome};
ghost use Rattle.ficus_world.specs.Calls.{Shows};

use crate::group::Group;
use ficus_durable_state::{BYTE_LIMIT, UPDATE_LIMIT};
use ficus_ids::Members;
use ficus_keeper::Keep;
use ficus_model::History;
use ficus_outside::Link;
use ficus_replica::Replica;
use ficus_stable_storage::Stable;
use std::marker::Model;

/// The most updates of one replica over its life, where nothing else is said.
pub const DEFAULT_IDS: u32 = UPDATE_LIMIT;

/// The most bytes that one replica writes over its life, where nothing else is said.
pub const DEFAULT_BYTES: u32 = BYTE_LIMIT;

/// The members of a volume, the history of this run, the link over which they exchange messages, with the position
/// behind each posted message, and for each member the keeper of what it saves. A world's disks are handed to its
/// calls.
#[derive(Drop)]
pub struct World<K: Keep + Drop, L: Link + Drop> {
    pub(crate) group: Group<L>,
    pub(crate) stables: Vec<Stable<K>>,
}

impl<K: Keep + Drop, L: Link + Drop> Model for World<K, L> {
    ghost use Rattle.std.specs.Prelude.{◌≡◌, length};
    ghost use Rattle.ficus_world.specs.World.{Backed};

    ghost Value = { Backed K };

    ghost view = { λ w. record {
      whole = w.group;
      stables = w.stables.items;
    } };

    ghost invariant = { λ w. length w.stables.items ≡ length w.group.members };
}

impl<K: Keep + Drop, L: Link + Drop> World<K, L> {
    ghost use Rattle.ficus_why.specs.Plain.{IsPlain};
    ghost use Rattle.ficus_world.specs.World.{IsReplica, IsUpIn};

    /// The events of this run, each of a replica from 1 to 8.
    pub fn history(&self) -> &History
        ensures events { result.now.events ≡ self.now.whole.events }
        ensures plain { IsPlain result.now.events }
    {
        &self.group.history
    }

    /// How many members there are.
    pub fn members(&self) -> Members
        ensures { result ≡ length self.now.whole.members }
    {
        self.group.count()
    }

    /// The link over which the members exchange messages.
    pub fn link(&self) -> &L
        ensures { Shows (L.posts result.now) (L.total result.now) (L.faults result.now) self.now.whole.post }
    {
        self.group.post.link()
    }

    /// The replica with this number, or `None` exactly where the number is no member's or the member is down.
    pub fn replica(&self, number: u8) -> Option<&Replica>
        ensures up { IsSome result ↔ IsUpIn self.now.whole number }
        ensures replica { IfSome result (λ replica. IsReplica self.now.whole.members number replica.now) }
    {
        match self.group.up(number) {
            Ok(member) => Some(&member.replica),
            Err(_) => None,
        }
    }
}
