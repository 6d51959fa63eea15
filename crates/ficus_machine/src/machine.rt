ghost use Rattle.std.specs.Prelude.{◌≡◌, length};
ghost use Rattle.ficus_ids.specs.Members.{IsMember};
ghost use Rattle.ficus_machine.specs.Machine.{MachineState, ask_of, no_post};
ghost use Rattle.ficus_machine.specs.Opening.{OpensMachine, OpensNote, WaitsAsNoted};
ghost use Rattle.ficus_world.specs.Moves.{with_post};

use ficus_disk::{Disk, Pair};
use ficus_ids::Members;
use ficus_keeper::Keep;
use ficus_note::{Asked as Noted, Note, NoteFault};
use ficus_opening::WorldFault;
use ficus_outside::MemLink;
use ficus_replica::Asked;
use ficus_tag::Tag;
use ficus_world::World;
use std::alloc::Global;
use std::marker::Model;

/// A member of a volume on a machine of its own: its world, in which all other members are down, the tag of its volume,
/// and the note of its open ask. Its disks, those of the note, and its mailbox are handed to its calls.
#[derive(Drop)]
pub struct Machine<K: Keep + Drop> {
    pub(crate) me: u8,
    pub(crate) tag: Tag,
    pub(crate) world: World<K, MemLink>,
    pub(crate) note: Note,
}

impl<K: Keep + Drop> Model for Machine<K> {
    ghost Value = { MachineState K };

    ghost view = { λ m. record { me = m.me; tag = m.tag; world = m.world; note = m.note } };
}

impl<K: Keep + Drop> Machine<K> {
    /// Opens a machine on the disks of its member and of its note. There are eight pairs, of which the one with the
    /// member's number is its own; the others hold nothing. Where an ask is noted, the member goes on waiting for its
    /// answer; else it has restarted.
    ///
    /// `Store` comes only where a disk of that pair, or of the note, failed; `Image` exactly where the member's disks
    /// hold nothing of its own with which a world may be opened, or no note is kept; `Occupied` exactly where the pair
    /// of another member holds something.
    pub fn open<D: Disk, N: Disk>(
        alloc: Global,
        disks: &mut Vec<Pair<D>>,
        slots: &mut Pair<N>,
        me: u8,
        tag: Tag,
    ) -> Result<Machine<K>, WorldFault>
        requires pairs { length disks.old.items ≡ 8 }
        requires me { IsMember 8 me }
        ensures { OpensMachine K.Keep D.Disk N.Disk me tag result disks.old.items disks.new.items slots.old
            slots.new }
    {
        let mut world = World::open_alone(alloc, disks, me, MemLink::new(alloc))?;
        let note = open_note(alloc, slots, me)?;
        wait_as_noted(&mut world, me, note.asked());
        Ok(Machine {
            me,
            tag,
            world,
            note,
        })
    }

    /// The number of its member.
    pub fn member(&self) -> u8
        ensures { result ≡ self.now.me }
    {
        self.me
    }

    /// How many members its volume has.
    pub fn members(&self) -> Members
        ensures { result ≡ length self.now.world.whole.members }
    {
        self.world.members()
    }

    // Its world has no message any more.
    pub(crate) fn renew(&mut self, alloc: Global)
        ensures renewed { self.new.world.whole ≡ with_post self.old.world.whole no_post }
        ensures stables { self.new.world.stables ≡ self.old.world.stables }
        ensures me { self.new.me ≡ self.old.me }
        ensures tag { self.new.tag ≡ self.old.tag }
        ensures note { self.new.note ≡ self.old.note }
    {
        self.world.renew_link(alloc, MemLink::new(alloc));
    }
}

/// An ask as a replica has it.
pub(crate) fn ask_of(noted: Noted) -> Asked
    ensures { result ≡ ask_of noted }
{
    Asked {
        to: noted.to,
        number: noted.number,
    }
}

/// An ask as the note has it.
pub(crate) fn noted_of(asked: Asked) -> Noted
    ensures { ask_of result ≡ asked }
{
    Noted {
        to: asked.to,
        number: asked.number,
    }
}

// Opens the note of this member.
fn open_note<N: Disk>(alloc: Global, slots: &mut Pair<N>, me: u8) -> Result<Note, WorldFault>
    ensures { OpensNote N.Disk me result slots.old slots.new }
{
    match Note::open(alloc, slots) {
        Ok(note) => Ok(note),
        Err(NoteFault::Failed) => Err(WorldFault::Store(me)),
        Err(NoteFault::NoNote | NoteFault::Damaged) => Err(WorldFault::Image(me)),
        Err(NoteFault::Memory) => Err(WorldFault::Memory),
    }
}

// This member waits for the answer to the ask that is noted, where one is.
fn wait_as_noted<K: Keep + Drop>(world: &mut World<K, MemLink>, me: u8, noted: Option<Noted>)
    requires { IsMember (length world.old.whole.members) me }
    ensures waits { WaitsAsNoted me noted world.old.whole world.new.whole }
    ensures stables { world.new.stables ≡ world.old.stables }
{
    if let Some(noted) = noted {
        world.await_answer(me, Some(ask_of(noted)));
    }
}
