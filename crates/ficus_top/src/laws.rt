ghost use Rattle.std.specs.Prelude.{◌≡◌, ◌≢◌, ◌↔◌, ◌⊎◌, ◌<◌, ◌≤◌, ◌+◌, ◌-◌, ◌^◌, ℕ, List, [], ◌++◌, length, Contains, ⊤};
ghost use Rattle.ficus_disk.specs.declared.pair.Pair.{Pair as PairValue};
ghost use Rattle.ficus_ids.specs.Members.{IsCount};
ghost use Rattle.ficus_model.specs.Lawful.{IsLawful, Volume};
ghost use Rattle.ficus_model.specs.declared.event.Event.{Event};
ghost use Rattle.ficus_runs.specs.Fuses.{FuseState};
ghost use Rattle.ficus_keeper.specs.Pairs.{PairLeft, PairSame};
ghost use Rattle.ficus_runs.specs.Numbered.{IsNumbered};
ghost use Rattle.ficus_script.specs.declared.command.Command.{Command};
ghost use Rattle.ficus_script.specs.declared.command.Command.TheVariants.{Stop as Stops};
ghost use Rattle.ficus_top.specs.Summary.Keeper.{kept_in};
ghost use Rattle.ficus_opening.specs.Fuses.{AreUnarmed};
ghost use Rattle.ficus_world.specs.Fuses.{at_rest};
ghost use Rattle.ficus_loop.specs.Trail.{AreKilled, DuringAt, IsPendingIn, KeepsBetween, KeepsFrom, Killed, SomePending, Somewhere, Trail, whole};
ghost use Rattle.ficus_loop.specs.Trail.Trail.{Still};
ghost use Rattle.ficus_runs.specs.Outcome.{Outcome};
ghost use Rattle.ficus_script.specs.declared.answer.Answer.{Answer};
ghost use Rattle.ficus_loop.specs.Crashes.{CrashesKeep};
ghost use Rattle.ficus_opening.specs.Opening.{AreEmpty, AreSynced, StandsOn, Steady};
ghost use Rattle.ficus_world.specs.Stand.{DisksOutlast, DisksStand};
ghost use Rattle.ficus_top.specs.Codes.{IsCode, IsIdleCode, IsReadCode, IsUntouchedCode, NamesReplica};
ghost use Rattle.ficus_top.specs.Ends.{AllUp, NoneFailed};
ghost use Rattle.ficus_top.specs.Modes.Check.{IsCheckCode};
ghost use Rattle.ficus_top.specs.Modes.Gen.{IsGenCode};
ghost use Rattle.ficus_top.specs.Modes.Init.{IsInitCode};
ghost use Rattle.ficus_top.specs.Modes.Replay.{IsReplayCode};
ghost use Rattle.ficus_top.specs.Modes.Run.{IsRunCode};
ghost use Rattle.ficus_top.specs.Modes.Volumes.{IsVolumesCode};
ghost use Rattle.ficus_loop.specs.Puts.{PutsFront};
ghost use Rattle.ficus_loop.specs.Serving.{ServesFront, PutsAllButLast};
ghost use Rattle.ficus_top.specs.Headline.{Answers, AnswersFront, AreFusesAtRest, fuses_of};
ghost use Rattle.ficus_runs.specs.ModelWorld.{ModelWorld};

use ficus_disk::Disk;
use ficus_outside::Sink;

/// The law that a run in which nothing was done ends with another code than 0, 3 and 5, and each other run with one of
/// these. It does nothing when it runs.
pub fn idle_codes()
    ensures told { (code : ℕ) → IsCode code ↔ (IsIdleCode code ⊎ (code ≡ 0) ⊎ (code ≡ 3) ⊎ (code ≡ 5)) }
    ensures idle { (code : ℕ) → IsIdleCode code → (code ≢ 0) × (code ≢ 3) × (code ≢ 5) }
{}

/// The law that a run which ends with another code than 1, 3, 4 and 8 has read the whole script, and no run that ends
/// with one of 1, 4 and 8 has. It does nothing when it runs.
pub fn read_codes()
    ensures told { (code : ℕ)
        → IsCode code ↔ (IsReadCode code ⊎ (code ≡ 1) ⊎ (code ≡ 3) ⊎ (code ≡ 4) ⊎ (code ≡ 8)) }
    ensures read { (code : ℕ) → IsReadCode code → (code ≢ 1) × (code ≢ 4) × (code ≢ 8) }
{}

/// The law that where a front of bytes was put, what was put before stays, and more bytes would make it the whole. It
/// does nothing when it runs.
pub fn fronts_go_on()
    ensures stays { (old bytes new : List ℕ) → PutsFront old bytes new → length old ≤ length new }
    ensures goes_on { (old bytes new : List ℕ) → PutsFront old bytes new
        → (rest : List ℕ) × (new ++ rest ≡ old ++ bytes) }
{}

/// The law that of a run that ended early all answers but the last were put whole, over a sink that tells: where the
/// next command may have been cut short, and where it may not. It does nothing when it runs.
pub fn all_but_the_last_are_put()
    ensures cut { (volume : Volume) (W after : ModelWorld) (commands : List Command) (old new : List ℕ)
        → ServesFront ⊤ ⊤ volume W commands after old new → PutsAllButLast ⊤ volume W commands after old new }
    ensures uncut { (volume : Volume) (W after : ModelWorld) (commands : List Command) (old new : List ℕ)
        → ServesFront ⊤ ⊥ volume W commands after old new → PutsAllButLast ⊥ volume W commands after old new }
{}

/// The law that what is put is a function of the script, of what had happened before and of which disks have a fuse,
/// where the fuses stood so before that they decide what becomes of all that is asked of the disks. It does nothing
/// when it runs.
pub fn same_script_same_answers<D: Disk, E: Disk>()
    ensures { (volume : Volume) (earlier : List Event) (script old new again newer : List ℕ)
        (disks after : List (PairValue D)) (others later : List (PairValue E)) (F : ℕ → FuseState)
        → AreFusesAtRest D.Disk volume.members earlier disks F → AreFusesAtRest E.Disk volume.members earlier others F
        → fuses_of D.armings volume.members disks ≡ fuses_of E.armings volume.members others
        → Answers ⊤ D.Disk (AreFusesAtRest D.Disk volume.members earlier disks) volume earlier script old new disks
        after
        → Answers ⊤ E.Disk (AreFusesAtRest E.Disk volume.members earlier others) volume earlier script again newer
        others
        later
        → (text : List ℕ) × (new ≡ old ++ text) × (newer ≡ again ++ text) }
{}

/// The law that in a run over a script, also in one that ended early, a disk is armed only where the script has a stop
/// of its replica. It does nothing when it runs.
pub fn only_stops_arm_disks<K: Sink, D: Disk>()
    ensures answers { (volume : Volume) (earlier : List Event) (script old new : List ℕ)
        (disks after : List (PairValue D))
        → (answers : Answers K.tells D.Disk (AreFusesAtRest D.Disk volume.members earlier disks) volume earlier
        script old new disks after) → (r : ℕ) (was now : PairValue D) → IsNumbered disks r was → IsNumbered after r now
        → ((calls pick : ℕ) → Contains answers.commands (Stops r calls pick) → ⊥) → PairSame D.armings was now }
    ensures cut { (volume : Volume) (earlier : List Event) (script old new : List ℕ) (disks after : List (PairValue D))
        → (answers : AnswersFront K.tells ⊤ D.Disk (AreFusesAtRest D.Disk volume.members earlier disks) volume earlier
        script old new disks after) → (r : ℕ) (was now : PairValue D) → IsNumbered disks r was → IsNumbered after r now
        → ((calls pick : ℕ) → Contains answers.commands (Stops r calls pick) → ⊥) → PairSame D.armings was now }
    ensures uncut { (volume : Volume) (earlier : List Event) (script old new : List ℕ)
        (disks after : List (PairValue D))
        → (answers : AnswersFront K.tells ⊥ D.Disk (AreFusesAtRest D.Disk volume.members earlier disks) volume earlier
        script old new disks after) → (r : ℕ) (was now : PairValue D) → IsNumbered disks r was → IsNumbered after r now
        → ((calls pick : ℕ) → Contains answers.commands (Stops r calls pick) → ⊥) → PairSame D.armings was now }
{}

/// The law that where nobody is down at the end of a run, the next one begins with all that has happened, whether the
/// disks still hold what they held then, or a crash has left something of them. Where some are down it begins with that
/// and with some of what was pending. And whatever a crash leaves of the disks before the next run keeps that history,
/// as it does where nothing is unsynced: so what a kill of that run leaves is known. It does nothing when it runs.
pub fn next_run_goes_on<D: Disk>()
    ensures stand { (volume : Volume) (after : ModelWorld) (disks : List (PairValue D)) → IsCount volume.members
        → IsLawful volume after.events → length after.events < 2 ^ 62 → length after.standings ≡ volume.members
        → AllUp after → DisksStand kept_in D.seen volume after disks
        → StandsOn kept_in D.seen volume after.events disks }
    ensures outlasts { (volume : Volume) (after : ModelWorld) (disks left : List (PairValue D))
        → IsCount volume.members → IsLawful volume after.events → length after.events < 2 ^ 62
        → length after.standings ≡ volume.members → AllUp after
        → DisksOutlast kept_in D.may_leave volume after disks → length left ≡ length disks
        → ((r : ℕ) (was now : PairValue D) → IsNumbered disks r was → IsNumbered left r now
        → PairLeft D.seen D.may_leave was now) → StandsOn kept_in D.seen volume after.events left }
    ensures down { (volume : Volume) (after : ModelWorld) (disks left : List (PairValue D)) → IsCount volume.members
        → IsLawful volume after.events → length after.events + volume.members < 2 ^ 62
        → length after.standings ≡ volume.members → volume.members ≤ length disks
        → DisksOutlast kept_in D.may_leave volume after disks → length left ≡ length disks
        → ((r : ℕ) (was now : PairValue D) → IsNumbered disks r was → IsNumbered left r now
        → PairLeft D.seen D.may_leave was now)
        → (more : List Event) × SomePending (IsPendingIn after) volume.members more
        × StandsOn kept_in D.seen volume (after.events ++ more) left }
    // What a kill of the next run leaves is known too.
    ensures crashes { (volume : Volume) (after : ModelWorld) (disks : List (PairValue D))
        → length after.standings ≡ volume.members → AllUp after → DisksOutlast kept_in D.may_leave volume after disks
        → CrashesKeep kept_in D.may_leave volume after.events disks }
    ensures synced { (volume : Volume) (H : List Event) (disks : List (PairValue D))
        → StandsOn kept_in D.seen volume H disks → AreSynced D.seen D.may_leave disks volume.members
        → CrashesKeep kept_in D.may_leave volume H disks }
{}

/// The law of a run that was killed. Let what a read of some pairs gives be what a kill might have left between two
/// neighbours of the run's trail. Killed while the volume was opened, they keep the history of the entry. Killed after
/// the first k answers and before the next one is whole, they keep what had happened after k commands, then some first
/// events of those of the next command: none or all of them, but for a pull, which has an event for each of its
/// messages, and a sweep, which has those of its pulls and collections; behind them stands some of what is pending
/// there, an event of a member at most. With what they keep the next run begins. It does nothing when it runs.
pub fn killed_runs_go_on<D: Disk>()
    ensures run { (volume : Volume) (W after : ModelWorld) (commands : List Command) (outcomes : List (List Outcome))
        (answers : List Answer) (entry now left : List (PairValue D))
        (killed : Killed kept_in D.Disk volume W commands outcomes answers after entry now) → D.tells
        → D.tells_moments → IsLawful volume W.events → length W.standings ≡ volume.members
        → volume.members ≤ length left → Somewhere (AreKilled D.Disk left) (whole (Still killed.opens) killed.run)
        → KeepsBetween (Still killed.opens) left
        ⊎ ((k : ℕ) × (during : DuringAt kept_in D.Disk volume (AreKilled D.Disk left) W commands outcomes answers k)
        × KeepsBetween during.does.trail left) }
    // The same of the trail of a last command that was cut short.
    ensures cut { (volume : Volume) (V U : ModelWorld) (old new left : List (PairValue D))
        (trail : Trail kept_in D.Disk volume V U old new) → D.tells → D.tells_moments → IsLawful volume V.events
        → length V.standings ≡ volume.members → volume.members ≤ length left
        → Somewhere (AreKilled D.Disk left) trail → KeepsBetween trail left }
    ensures next { (volume : Volume) (W : ModelWorld) (left : List (PairValue D)) → IsCount volume.members
        → length W.events + volume.members < 2 ^ 62 → KeepsFrom kept_in D.seen volume W left
        → (more : List Event) × SomePending (IsPendingIn W) volume.members more
        × StandsOn kept_in D.seen volume (W.events ++ more) left }
{}

/// The law that the fuses of empty disks of which none is armed are at rest before anything has happened. It does
/// nothing when it runs.
pub fn empty_disks_are_at_rest<D: Disk>()
    ensures { (members : ℕ) (disks : List (PairValue D)) (F : ℕ → FuseState) → D.tells_fuse
        → AreEmpty D.seen disks members → AreUnarmed D.fuse disks → ((r : ℕ) → F r ≡ at_rest 0)
        → AreFusesAtRest D.Disk members [] disks F }
{}

/// The law that no disk has failed where no count of faults has risen or stands at its last value. It does nothing when
/// it runs.
pub fn unrisen_counts_are_no_failures<D: Disk>()
    ensures { (old new : List (PairValue D)) → Steady D.faults old new
        → ((r : ℕ) (pair : PairValue D) → IsNumbered new r pair
        → (D.faults pair.a < 2 ^ 64 - 1) × (D.faults pair.b < 2 ^ 64 - 1)) → NoneFailed D.faults old new }
{}

/// The law that each mode ends with some of the codes: a run with each but 1 and 9, a replay with each but 1, a run
/// over several volumes with each but 1 and those that name a replica, the making of a volume with each but those of a
/// script and of opening, a check with 0, 3, 5 and 6, and a summary with 0, 3 and 5. It does nothing when it runs.
pub fn mode_codes()
    ensures run { (code : ℕ) → IsRunCode code ↔ (IsCode code × (code ≢ 1) × (code ≢ 9)) }
    ensures replay { (code : ℕ) → IsReplayCode code ↔ (IsCode code × (code ≢ 1)) }
    ensures volumes { (code : ℕ) → IsVolumesCode code
        ↔ (IsCode code × (code ≢ 1) × (NamesReplica code → ⊥)) }
    ensures init { (code : ℕ) → IsInitCode code
        ↔ (IsCode code × (code ≢ 5) × (code ≢ 7) × (IsUntouchedCode code → ⊥)) }
    ensures check { (code : ℕ) → IsCheckCode code ↔ (IsCode code × (code ≢ 7) × (code ≢ 9)
        × (IsUntouchedCode code → ⊥)) }
    ensures summary { (code : ℕ) → IsGenCode code ↔ (IsCode code × (IsIdleCode code → ⊥)) }
{}
