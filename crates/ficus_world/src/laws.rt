//! What worlds stand for.
ghost use Rattle.std.specs.Prelude.{◌≡◌, ◌↔◌, ℕ, List, length, Contains};
ghost use Rattle.ficus_deciding.specs.View.{held_dead};
ghost use Rattle.ficus_model.specs.Held.{IsHeldEntry};
ghost use Rattle.ficus_model.specs.Lawful.{Volume};
ghost use Rattle.ficus_model.specs.Live.{ModelEntry};
ghost use Rattle.ficus_removal_laws.specs.Marks.{IsMarked};
ghost use Rattle.ficus_runs.specs.ModelWorld.{ModelWorld};
ghost use Rattle.ficus_runs.specs.Numbered.{IsNumbered};
ghost use Rattle.ficus_opening.specs.Disks.{AreDisksOf};
ghost use Rattle.ficus_ids.specs.declared.refusal.Refusal.{Refusal as RefusalValue};
ghost use Rattle.ficus_runs.specs.Outcome.{Outcome};
ghost use Rattle.ficus_script.specs.declared.answer.Answer.TheVariants.{Refused};
ghost use Rattle.ficus_script.specs.declared.command.Command.{Command as CommandValue};
ghost use Rattle.ficus_world.specs.Kills.{IsPull, SparesDisks};
ghost use Rattle.ficus_world.specs.Moves.{CutShort, Moves};
ghost use Rattle.ficus_world.specs.Stand.{ArePending, DisksOutlast, DisksStand};
ghost use Rattle.ficus_world.specs.World.{Whole, WorldStandsFor};
ghost use Rattle.ficus_opening.specs.declared.member.Member.{Member as MemberValue};

use crate::World;
use ficus_disk::{Disk, Pair};
use ficus_keeper::Keep;
use ficus_outside::Link;

/// A world of the model has one world that stands for it, has so many of its events stored, and whose link has failed
/// so often.
pub fn one_world()
    ensures { (volume : Volume) (W : ModelWorld) (one other : Whole) → WorldStandsFor volume W one
        → WorldStandsFor volume W other → length one.events ≡ length other.events
        → one.post.faults ≡ other.post.faults → one ≡ other }
{}

/// In a world that stands for one of the model a member, up or down, holds a removed entry with two sets exactly where
/// by the history it holds the entry, the first set has exactly the members of which it knows that they know of the
/// removal, and the second exactly those of which it knows that they know that all know.
pub fn knowledge_is_held()
    ensures { (volume : Volume) (W : ModelWorld) (world : Whole) (number : ℕ) (member : MemberValue)
        (entry : ModelEntry) (knowing knowing_all_know : ℕ) → WorldStandsFor volume W world
        → IsNumbered world.members number member
        → Contains member.replica.saved.entries (held_dead entry knowing knowing_all_know)
        ↔ (IsHeldEntry volume.members W.events number entry
        × IsMarked volume.members W.events number entry.id knowing knowing_all_know) }
{}

/// A command that is refused, but where a disk has failed, leaves each member as it was; so does one that is cut short
/// for want of memory. An ask whose post failed stands, and a pull keeps what it has done. Of a restart that is refused
/// it says nothing. It does nothing when it runs.
pub fn refusals_save_nothing<L: Link, D: Disk>()
    ensures refused { (old new : Whole) (command : CommandValue) (outcomes : List Outcome) (refusal : RefusalValue)
        → Moves L.tells D.tells old command outcomes (Refused refusal) new → SparesDisks command refusal
        → new.members ≡ old.members }
    ensures memory { (old new : Whole) (command : CommandValue) (outcomes : List Outcome)
        → CutShort L.tells command old (record { outcomes = outcomes; after = new }) → (IsPull command → ⊥)
        → new.members ≡ old.members }
{}

/// Where a world stands for one of the model, what is pending there may still come. It does nothing when it runs.
pub fn pending_events_may_come()
    ensures { (volume : Volume) (W : ModelWorld) (world : Whole) → WorldStandsFor volume W world
        → ArePending volume W }
{}

/// The disks of a world stand for what it stands for.
pub fn disks_stand<K: Keep + Drop, L: Link + Drop, D: Disk>(
    world: &World<K, L>,
    disks: &Vec<Pair<D>>,
)
    requires { AreDisksOf K.Keep D.Disk world.now.whole.members world.now.stables disks.now.items }
    ensures stand { D.tells → (volume : Volume) (W : ModelWorld) → WorldStandsFor volume W world.now.whole
        → DisksStand K.kept D.seen volume W disks.now.items }
    // Whatever a crash leaves of them does too.
    ensures outlasts { D.tells → (volume : Volume) (W : ModelWorld) → WorldStandsFor volume W world.now.whole
        → DisksOutlast K.kept D.may_leave volume W disks.now.items }
{
    // Reading its fields tells what holds of every world.
    let _ = &world.stables;
    let _ = &world.group.members;
}
