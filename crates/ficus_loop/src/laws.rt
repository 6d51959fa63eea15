//! The laws of kills.
ghost use Rattle.std.specs.Prelude.{◌≡◌, ◌⊎◌, ◌≤◌, ◌++◌, List, ℕ, Option, Some, length};
ghost use Rattle.ficus_disk.specs.declared.pair.Pair.{Pair as PairValue};
ghost use Rattle.ficus_ids.specs.Members.{IsMember};
ghost use Rattle.ficus_keeper.specs.Kept.{Kept};
ghost use Rattle.ficus_keeper.specs.Pairs.{PairLeft};
ghost use Rattle.ficus_model.specs.Lawful.{IsLawful, Volume};
ghost use Rattle.ficus_model.specs.declared.event.Event.{Event};
ghost use Rattle.ficus_runs.specs.ModelWorld.{Down, ModelWorld, Standing};
ghost use Rattle.ficus_runs.specs.Numbered.{IsNumbered};
ghost use Rattle.ficus_runs.specs.Outcome.{Outcome};
ghost use Rattle.ficus_script.specs.declared.answer.Answer.{Answer};
ghost use Rattle.ficus_script.specs.declared.command.Command.{Command};
ghost use Rattle.ficus_world.specs.Kills.{IsDeedOf, Passes};
ghost use Rattle.ficus_world.specs.Stand.{DisksOutlast, KeepsFor};
ghost use Rattle.ficus_opening.specs.Stand.{KeepsOf};
ghost use Rattle.ficus_world.specs.World.{Whole, WorldStandsFor};
ghost use Rattle.ficus_loop.specs.Trail.{BeginsSave, Covers, DuringAt, KeepsFrom, LeftOn, Neighbours, RunOn, SomePending, Somewhere, Trail, TrailOf, WasLeft};

use ficus_disk::Disk;
use ficus_keeper::Keep;
use ficus_outside::Link;

/// The law that where a world stands for one of the model, over a link that tells its posts and disks that tell what
/// they hold, what it passes leaves a trail, from that world of the model to the one for which it then stands, of
/// which each link is of the same command. It does nothing when it runs.
pub fn steps_leave_trails<K: Keep, L: Link, D: Disk>()
    ensures { (volume : Volume) (command : Command) (W : ModelWorld) (old new : Whole) (disks now : List (PairValue D))
        → L.tells → D.tells → WorldStandsFor volume W old
        → Passes L.tells K.Keep D.Disk (IsDeedOf command) old new disks now
        → (after : ModelWorld) × WorldStandsFor volume after new
        × TrailOf K.kept D.Disk volume (IsDeedOf command) W after disks now }
{}

/// The law that what a crash might have left on a disk since a trail began, it might have left there between some two
/// neighbours of the trail. It does nothing when it runs.
pub fn killed_at_any_moment<D: Disk>()
    ensures { (kept : List ℕ → List ℕ → Option Kept) (volume : Volume) (V U : ModelWorld) (old new : List (PairValue D))
        (trail : Trail kept D.Disk volume V U old new) → D.tells_moments → Covers trail }
{}

/// The law that what a crash might have left on a disk since the entry of a run, it might have left there during its
/// openings, or during one command: between two neighbours of the trail that goes from the world after the commands
/// before it to the world after it. It does nothing when it runs.
pub fn each_moment_is_of_one_command<D: Disk>()
    ensures on_a { (kept : List ℕ → List ℕ → Option Kept) (volume : Volume) (W V U : ModelWorld)
        (commands : List Command) (outcomes : List (List Outcome)) (answers : List Answer)
        (entry mid new : List (PairValue D)) (first : Trail kept D.Disk volume W V entry mid)
        (run : RunOn kept D.Disk volume V commands outcomes answers U mid new) (r : ℕ) (was now : PairValue D)
        (c : List ℕ) → D.tells_moments → IsNumbered entry r was → IsNumbered new r now
        → D.left_since now.a (D.moment was.a) c → Somewhere (LeftOn D.Disk (λ (p : PairValue D). p.a) r c) first
        ⊎ ((k : ℕ) × DuringAt kept D.Disk volume (LeftOn D.Disk (λ (p : PairValue D). p.a) r c) V commands outcomes
        answers k) }
    ensures on_b { (kept : List ℕ → List ℕ → Option Kept) (volume : Volume) (W V U : ModelWorld)
        (commands : List Command) (outcomes : List (List Outcome)) (answers : List Answer)
        (entry mid new : List (PairValue D)) (first : Trail kept D.Disk volume W V entry mid)
        (run : RunOn kept D.Disk volume V commands outcomes answers U mid new) (r : ℕ) (was now : PairValue D)
        (c : List ℕ) → D.tells_moments → IsNumbered entry r was → IsNumbered new r now
        → D.left_since now.b (D.moment was.b) c → Somewhere (LeftOn D.Disk (λ (p : PairValue D). p.b) r c) first
        ⊎ ((k : ℕ) × DuringAt kept D.Disk volume (LeftOn D.Disk (λ (p : PairValue D). p.b) r c) V commands outcomes
        answers k) }
{}

/// The law that what keeps of each member what a world says of it, also where it is down, keeps one history: what has
/// happened, and some of what was pending, an event of a member at most. It does nothing when it runs.
pub fn pending_events_go_on()
    ensures { (volume : Volume) (H : List Event) (found : ℕ → Option Kept) (standing : ℕ → Standing)
        → IsLawful volume H
        → ((r : ℕ) → IsMember volume.members r → KeepsFor volume H r (found r) (standing r))
        → (more : List Event) × SomePending (λ r event. standing r ≡ Down (Some event)) volume.members more
        × (length more ≤ volume.members) × IsLawful volume (H ++ more)
        × ((r : ℕ) → IsMember volume.members r → KeepsOf volume (H ++ more) r (found r)) }
{}

/// The law that what a kill between two neighbours of a trail leaves of all pairs can be opened, and keeps one history:
/// what was so in the world before, or, where a save was begun, in the world after; and some of what was pending. It
/// does nothing when it runs.
pub fn killed_disks_keep_one_history<D: Disk>()
    ensures { (kept : List ℕ → List ℕ → Option Kept) (volume : Volume) (V U : ModelWorld) (old new left :
        List (PairValue D)) → D.tells → D.tells_moments → IsLawful volume V.events → IsLawful volume U.events
        → length V.standings ≡ volume.members → length U.standings ≡ volume.members
        → volume.members ≤ length old → length left ≡ length old → Neighbours kept D.Disk volume V U old new
        → ((r : ℕ) (was now found : PairValue D) → IsNumbered old r was → IsNumbered new r now
        → IsNumbered left r found → WasLeft D.Disk was now found)
        → KeepsFrom kept D.seen volume V left
        ⊎ ((by : ℕ) × BeginsSave V U by × KeepsFrom kept D.seen volume U left) }
{}

/// The law that whatever a crash leaves of the disks of a world keeps one history, also where members are down: what
/// has happened, and some of what was pending. It does nothing when it runs.
pub fn left_disks_keep_one_history<D: Disk>()
    ensures { (kept : List ℕ → List ℕ → Option Kept) (volume : Volume) (W : ModelWorld) (disks left :
        List (PairValue D)) → IsLawful volume W.events → length W.standings ≡ volume.members
        → volume.members ≤ length disks → length left ≡ length disks → DisksOutlast kept D.may_leave volume W disks
        → ((r : ℕ) (was now : PairValue D) → IsNumbered disks r was → IsNumbered left r now
        → PairLeft D.seen D.may_leave was now) → KeepsFrom kept D.seen volume W left }
{}

/// A world stands for one world of the model with one history. It does nothing when it runs.
pub fn one_model()
    ensures { (volume : Volume) (V U : ModelWorld) (world : Whole) → WorldStandsFor volume V world
        → WorldStandsFor volume U world → V.events ≡ U.events → V ≡ U }
{}
