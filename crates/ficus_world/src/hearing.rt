ghost use Rattle.std.specs.Prelude.{◌≡◌, IfErr, IfOk, OnOk, [], length};
ghost use Rattle.ficus_world.specs.Hearing.{FetchesNot, HearsNot};
ghost use Rattle.ficus_world.specs.Moves.{with_post};
ghost use Rattle.ficus_world.specs.Post.{AreFetched, IsSent, lies_behind};

use crate::World;
use crate::group::Group;
use crate::post::{Behind, Post};
use ficus_ids::Refusal;
use ficus_keeper::Keep;
use ficus_outside::Link;
use std::alloc::Global;

// The fewest bytes of a message.
const SMALLEST_MESSAGE: usize = 12;

impl<K: Keep + Drop, L: Link + Drop> World<K, L> {
    /// A message has come from outside, and may be given. Gives its number. What it says isn't looked at. Refused with
    /// `BadMessage` where it has fewer bytes than any message, and with `LinkFull` where the link has no room.
    pub fn hear(&mut self, bytes: Vec<u8>) -> Result<u32, Refusal>
        ensures heard { IfOk result (λ number. IsSent L.tells self.old.whole.post (lies_behind 0 0) bytes.items number
            self.new.whole.post) }
        ensures refused { IfErr result (HearsNot bytes.items self.old.whole.post self.new.whole.post) }
        ensures rest { self.new.whole ≡ with_post self.old.whole self.new.whole.post }
        ensures stables { self.new.stables ≡ self.old.stables }
    {
        self.group.hear(bytes)
    }

    /// The bytes of a message that it has, for whoever carries them to another machine. Refused with `NoMail` where
    /// there is none of this number, and with `Link` where the link failed.
    pub fn message(&mut self, number: u32) -> Result<Vec<u8>, Refusal>
        ensures fetched { IfOk result (λ bytes. AreFetched L.tells self.old.whole.post.posts number bytes.items) }
        ensures same { OnOk result (self.new.whole ≡ self.old.whole) }
        ensures refused { IfErr result (FetchesNot number self.old.whole.post self.new.whole.post) }
        ensures rest { self.new.whole ≡ with_post self.old.whole self.new.whole.post }
        ensures stables { self.new.stables ≡ self.old.stables }
    {
        self.group.message(number)
    }

    /// It has no message any more, over another link, on which there is none.
    pub fn renew_link(&mut self, alloc: Global, link: L)
        requires { L.posts link ≡ [] }
        ensures posts { self.new.whole.post ≡ record {
          behind = [];
          posts = [];
          total = L.total link;
          faults = L.faults link;
        } }
        ensures rest { self.new.whole ≡ with_post self.old.whole self.new.whole.post }
        ensures stables { self.new.stables ≡ self.old.stables }
    {
        self.group.renew_link(alloc, link);
    }
}

impl<L: Link + Drop> Group<L> {
    // The same of all of a world but its disks.
    fn hear(&mut self, bytes: Vec<u8>) -> Result<u32, Refusal>
        ensures heard { IfOk result (λ number. IsSent L.tells self.old.post (lies_behind 0 0) bytes.items number
            self.new.post) }
        ensures refused { IfErr result (HearsNot bytes.items self.old.post self.new.post) }
        ensures rest { self.new ≡ with_post self.old self.new.post }
    {
        let size = bytes.len();
        if size < SMALLEST_MESSAGE {
            return Err(Refusal::BadMessage);
        }
        if !self.post.has_room_for(size as u64) {
            return Err(Refusal::LinkFull);
        }
        self.post.make_room(1)?;
        let behind = Behind {
            position: 0,
            index: 0,
        };
        self.post.send(bytes, behind)
    }

    // The same of all of a world but its disks.
    fn message(&mut self, number: u32) -> Result<Vec<u8>, Refusal>
        ensures fetched { IfOk result (λ bytes. AreFetched L.tells self.old.post.posts number bytes.items) }
        ensures same { OnOk result (self.new ≡ self.old) }
        ensures refused { IfErr result (FetchesNot number self.old.post self.new.post) }
        ensures rest { self.new ≡ with_post self.old self.new.post }
    {
        if !self.post.has(number) {
            return Err(Refusal::NoMail);
        }
        self.post.fetch(number)
    }

    // The same of all of a world but its disks.
    fn renew_link(&mut self, alloc: Global, link: L)
        requires { L.posts link ≡ [] }
        ensures posts { self.new.post ≡ record {
          behind = [];
          posts = [];
          total = L.total link;
          faults = L.faults link;
        } }
        ensures rest { self.new ≡ with_post self.old self.new.post }
    {
        self.post = Post::new(alloc, link);
    }
}
