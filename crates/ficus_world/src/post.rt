ghost use Rattle.std.specs.Prelude.{◌≡◌, ◌≢◌, ◌↔◌, ◌+◌, ◌^◌, ◌-◌, ◌<◌, ◌≤◌, ℕ, [], length, sum_by, Err, IfOk, OnOk, OnErr, IsTrue};
ghost use Rattle.ficus_ids.specs.Members.{IsMember};
ghost use Rattle.ficus_ids.specs.declared.refusal.Refusal.TheVariants.{Link as LinkFailed, Memory as OutOfMemory};
ghost use Rattle.ficus_runs.specs.Exchange.{total_limit};
ghost use Rattle.ficus_runs.specs.Numbered.{IsNumbered};
ghost use Rattle.ficus_world.specs.Disks.{Carried};
ghost use Rattle.ficus_world.specs.Moves.{SendsEach, with_post};
ghost use Rattle.ficus_world.specs.Post.{AreFetched, HasFailed, HasRoom, IsSent};
ghost use Rattle.ficus_world.specs.World.{Whole};
ghost use Rattle.ficus_world.specs.Calls.{Shows};

use ficus_faults::Failed;
use ficus_ids::{Listed, Memory, Refusal};
use ficus_outside::{FetchFault, Link};
use std::alloc::Global;
use std::marker::Model;

/// The most bytes that are posted in one run.
const TOTAL_LIMIT: u64 = 1_073_741_824;

/// What lies behind a posted message: where its event is stored, and, where that is a Serve, which piece of what was
/// served the message is, from 0.
#[derive(Clone, Copy)]
pub(crate) struct Behind {
    pub(crate) position: u32,
    pub(crate) index: u32,
}

/// A link, and what lies behind each posted message.
#[derive(Drop)]
pub(crate) struct Post<L: Link + Drop> {
    link: L,
    behind: Vec<Behind>,
}

impl<L: Link + Drop> Model for Post<L> {
    ghost use Rattle.std.specs.Prelude.{◌-◌, vec_len, vec_capacity};
    ghost use Rattle.ficus_world.specs.Post.{PostState};

    ghost Value = { PostState };

    ghost view = { λ p. record {
      now = record {
        behind = p.behind.items;
        posts = L.posts p.link;
        total = L.total p.link;
        faults = L.faults p.link;
      };
      link_room = L.room p.link;
      place_room = vec_capacity p.behind - vec_len p.behind;
    } };
}

impl<L: Link + Drop> Post<L> {
    /// A link without messages.
    pub(crate) fn new(alloc: Global, link: L) -> Post<L>
        ensures { result.now ≡ record {
          behind = [];
          posts = L.posts link;
          total = L.total link;
          faults = L.faults link;
        } }
    {
        Post {
            link,
            behind: Vec::new(alloc),
        }
    }

    /// The link.
    pub(crate) fn link(&self) -> &L
        ensures { Shows (L.posts result.now) (L.total result.now) (L.faults result.now) self.now.now }
    {
        &self.link
    }

    /// Takes the memory for so many messages and what lies behind them.
    pub(crate) fn make_room(&mut self, count: u32) -> Result<(), Memory>
        ensures room { OnOk result (HasRoom self.new count) }
        ensures same { self.new.now ≡ self.old.now }
    {
        self.behind.reserve(count as usize)?;
        self.link.reserve(count)
    }

    /// Posts the bytes, and keeps what lies behind them. Gives their number.
    pub(crate) fn send(&mut self, bytes: Vec<u8>, behind: Behind) -> Result<u32, Refusal>
        requires room { HasRoom self.old 1 }
        requires few { length self.old.now.posts < 2 ^ 32 - 1 }
        requires fits { self.old.now.total + length bytes.items ≤ total_limit }
        ensures sent { IfOk result (λ number. IsSent L.tells self.old.now behind bytes.items number self.new.now) }
        ensures room { (count : ℕ) → HasRoom self.old (count + 1) → HasRoom self.new count }
        ensures failed { OnErr result (HasFailed self.old.now self.new.now) }
        ensures refused { OnErr result (result ≡ Err LinkFailed) }
    {
        match self.link.post(bytes) {
            Ok(number) => {
                self.behind.push_reserved(behind);
                Ok(number)
            }
            Err(Failed) => Err(Refusal::Link),
        }
    }

    /// Posts the messages in order, which are the pieces of what was served by the event that is stored at the
    /// position, up to the first that fails.
    pub(crate) fn send_each(
        &mut self,
        messages: Vec<Listed<u8>>,
        position: u32,
    ) -> Result<(), Refusal>
        requires room { HasRoom self.old (length messages.items) }
        requires few { length self.old.now.posts + length messages.items < 2 ^ 32 }
        requires fits { self.old.now.total + sum_by length messages.items ≤ total_limit }
        ensures sent { (world : Whole) → Carried (SendsEach L.tells position 0 messages.items
            (with_post world self.old.now)) result (with_post world self.new.now) }
        ensures refused { OnErr result (result ≡ Err LinkFailed) }
    {
        let mut index = 0;
        for message in messages {
            self.send(message.into_vec(), Behind { position, index })?;
            index += 1;
        }
        Ok(())
    }

    /// The message with this number.
    pub(crate) fn fetch(&mut self, number: u32) -> Result<Vec<u8>, Refusal>
        requires { IsMember (length self.old.now.posts) number }
        ensures fetched { IfOk result (λ message. AreFetched L.tells self.old.now.posts number message.items) }
        ensures same { OnOk result (self.new.now ≡ self.old.now) }
        ensures failed { OnErr result (result ≢ Err OutOfMemory
            → (result ≡ Err LinkFailed) × HasFailed self.old.now self.new.now) }
        ensures memory { result ≡ Err OutOfMemory → self.new.now ≡ self.old.now }
    {
        match self.link.fetch(number) {
            Ok(message) => Ok(message),
            Err(FetchFault::Failed) => Err(Refusal::Link),
            Err(FetchFault::Memory) => Err(Refusal::Memory),
        }
    }

    /// The number of the message that is posted next.
    pub(crate) fn next(&self) -> u32
        requires { length self.now.now.posts < 2 ^ 32 - 1 }
        ensures { result ≡ length self.now.now.posts + 1 }
    {
        self.link.count() + 1
    }

    /// Whether there is a message of this number.
    pub(crate) fn has(&self, number: u32) -> bool
        ensures { IsTrue result ↔ IsMember (length self.now.now.posts) number }
    {
        1 <= number && number <= self.link.count()
    }

    /// Whether messages of so many bytes may be posted.
    pub(crate) fn has_room_for(&self, size: u64) -> bool
        ensures { IsTrue result ↔ (self.now.now.total + size ≤ total_limit) }
    {
        let total = self.link.total();
        total <= TOTAL_LIMIT && size <= TOTAL_LIMIT - total
    }

    /// What lies behind a message.
    pub(crate) fn behind(&self, number: u32) -> Behind
        requires { IsMember (length self.now.now.behind) number }
        ensures { IsNumbered self.now.now.behind number result }
    {
        self.behind[number as usize - 1]
    }
}
