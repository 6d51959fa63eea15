//! Laws of what the modes promise, in the words of those who rely on it.
ghost use Rattle.std.specs.Prelude.{◌≡◌, ◌⊎◌, ℕ, List, [], ◌∷◌, ◌++◌, take, Some, Vec, vec_items};
ghost use Rattle.std.specs.declared.alloc.Global.{Global as GlobalValue};
ghost use Rattle.ficus_disk.specs.declared.pair.Pair.{Pair as PairValue};
ghost use Rattle.ficus_loop.specs.Crashes.{CrashesKeep};
ghost use Rattle.ficus_loop.specs.Trail.{Trail};
ghost use Rattle.ficus_model.specs.Events.{actor};
ghost use Rattle.ficus_model.specs.Known.{Knows};
ghost use Rattle.ficus_model.specs.Lawful.{IsLawful, Volume};
ghost use Rattle.ficus_model.specs.Live.{IsLive, IsRemoved, ModelEntry};
ghost use Rattle.ficus_model.specs.declared.event.Event.{Event};
ghost use Rattle.ficus_opening.specs.Check.Judged.{IsJudged};
ghost use Rattle.ficus_opening.specs.Check.Lines.{checked_line};
ghost use Rattle.ficus_opening.specs.Opening.{AreEmpty, AreSynced, IsMadeInPart, SomeAreMade, StandsOn};
ghost use Rattle.ficus_opening.specs.Rests.{AllRest};
ghost use Rattle.ficus_opening.specs.declared.check.checked.Checked.{Checked};
ghost use Rattle.ficus_runs.specs.ModelWorld.{Down, ModelWorld};
ghost use Rattle.ficus_runs.specs.Numbered.{IsNumbered};
ghost use Rattle.ficus_runs.specs.Run.{Run};
ghost use Rattle.ficus_runs.specs.Start.{start};
ghost use Rattle.ficus_top.specs.Headline.{Answers, AreFusesAtRest, IsSound, fuses_of};
ghost use Rattle.ficus_top.specs.Making.{volume_of};
ghost use Rattle.ficus_top.specs.Modes.Check.{DoesCheck};
ghost use Rattle.ficus_top.specs.Modes.Init.{DoesInit};
ghost use Rattle.ficus_top.specs.Modes.Run.{DoesRun};
ghost use Rattle.ficus_top.specs.Seen.{seen_of};
ghost use Rattle.ficus_top.specs.Summary.Keeper.{kept_in};
ghost use Rattle.ficus_top.specs.declared.status.Status.{Status as StatusValue};
ghost use Rattle.ficus_words.specs.declared.mode.Size.{Size as SizeValue};

use ficus_disk::Disk;
use ficus_outside::{Sink, Source};

/// The law that a check with code 0 has put of each pair of disks a line that names its replica and says what the pair
/// is judged to be; and that one with another code than 0 and 5 has put nothing. It does nothing when it runs.
pub fn checks_judge_each_replica<S: Source, K: Sink, D: Disk>()
    ensures told { (before after : S) (was now : K) (disks later : Vec (PairValue D) GlobalValue) (status : StatusValue)
        → DoesCheck (seen_of S.Source before after K.Sink was now D.Disk disks later) status → K.tells → D.tells
        → status.code ≡ 0 → (r : ℕ) (pair : PairValue D) → IsNumbered (vec_items disks) r pair
        → (judgement : Checked) × IsJudged kept_in D.seen r pair judgement × (front : List ℕ) × (rest : List ℕ)
        × (K.written now ≡ K.written was ++ (front ++ (checked_line r judgement ++ rest))) }
    ensures silent { (before after : S) (was now : K) (disks later : Vec (PairValue D) GlobalValue)
        (status : StatusValue) → DoesCheck (seen_of S.Source before after K.Sink was now D.Disk disks later) status
        → (status.code ≡ 0) ⊎ (status.code ≡ 5) ⊎ (now ≡ was) }
{}

/// The law that nothing removed returns. What a replica knew to be removed after some first events of a sound history
/// isn't alive there after those behind them; so what it knew to be removed when the first k commands of a script were
/// answered isn't alive there when all are. It does nothing when it runs.
pub fn nothing_removed_returns<K: Sink, D: Disk>()
    ensures history { (volume : Volume) (earlier later : List Event) → IsSound volume (earlier ++ later)
        → (r : ℕ) (entry : ModelEntry) → IsRemoved earlier (Knows earlier r) entry.id
        → IsLive (earlier ++ later) (Knows (earlier ++ later) r) entry → ⊥ }
    ensures run { (volume : Volume) (earlier : List Event) (script old new : List ℕ) (disks after : List (PairValue D))
        → (answers : Answers K.tells D.Disk (AreFusesAtRest D.Disk volume.members earlier disks) volume earlier script
        old new disks after) → (k : ℕ) → (middle : ModelWorld)
        × Run volume (start earlier volume.members 0 (fuses_of D.armings volume.members disks))
        (take k answers.commands) (take k answers.ends.serves.outcomes) (take k answers.ends.serves.answers) middle
        × ((r : ℕ) (entry : ModelEntry) → IsRemoved middle.events (Knows middle.events r) entry.id
        → IsLive answers.ends.after.events (Knows answers.ends.after.events r) entry → ⊥) }
{}

/// The law that what is pending at the end of a run may still come: of a replica that is down with an event, that event
/// is its own, and the history with it is lawful. It does nothing when it runs.
pub fn what_is_pending_may_come<K: Sink, D: Disk>()
    ensures { (volume : Volume) (earlier : List Event) (script old new : List ℕ) (disks after : List (PairValue D))
        → (answers : Answers K.tells D.Disk (AreFusesAtRest D.Disk volume.members earlier disks) volume earlier script
        old new disks after) → (r : ℕ) (event : Event)
        → IsNumbered answers.ends.after.standings r (Down (Some event))
        → (actor event ≡ r) × IsLawful volume (answers.ends.after.events ++ event ∷ []) }
{}

/// The law that a run leaves a trail of its disks, from the world with which it begins, with whatever code it ends; or
/// no command was carried out, and nothing is written. So what a kill at any moment of it leaves is known. It does
/// nothing when it runs.
pub fn runs_leave_trails<S: Source, K: Sink, D: Disk>()
    ensures { (before end : S) (was now : K) (disks later : Vec (PairValue D) GlobalValue) (status : StatusValue)
        → DoesRun (seen_of S.Source before end K.Sink was now D.Disk disks later) status → S.tells → D.tells
        → (volume : Volume) (H : List Event) → StandsOn kept_in D.seen volume H (vec_items disks)
        → CrashesKeep kept_in D.may_leave volume H (vec_items disks)
        → AllRest D.Disk (vec_items disks) (vec_items later)
        ⊎ ((after : ModelWorld) × Trail kept_in D.Disk volume
        (start H volume.members 0 (fuses_of D.armings volume.members (vec_items disks))) after (vec_items disks)
        (vec_items later)) }
{}

/// The law that of empty disks with nothing unsynced `init` makes a volume to which nothing has happened, with code 0;
/// with code 3 some first replicas, and nothing else; with code 6 nothing, or those before the one that it names, and
/// this one in part. It ends with no other code. It does nothing when it runs.
pub fn volumes_are_made_or_in_part<S: Source, K: Sink, D: Disk>()
    ensures { (size : SizeValue) (before after : S) (was now : K) (disks later : Vec (PairValue D) GlobalValue)
        (status : StatusValue) → DoesInit size (seen_of S.Source before after K.Sink was now D.Disk disks later) status
        → D.tells → AreEmpty D.seen (vec_items disks) size.members
        → AreSynced D.seen D.may_leave (vec_items disks) size.members
        → ((status.code ≡ 0) × StandsOn kept_in D.seen (volume_of size) [] (vec_items later))
        ⊎ ((status.code ≡ 3) × SomeAreMade kept_in D.Disk (volume_of size) (vec_items disks) (vec_items later))
        ⊎ ((status.code ≡ 6) × (AllRest D.Disk (vec_items disks) (vec_items later)
        ⊎ IsMadeInPart kept_in D.Disk (volume_of size) status.replica (vec_items disks) (vec_items later))) }
{}
