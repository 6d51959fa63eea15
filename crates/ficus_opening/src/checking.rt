ghost use Rattle.std.specs.Prelude.{◌≡◌, ℕ, ⊤, IfOk, List, length};
ghost use Rattle.ficus_opening.specs.Check.Judged.{HoldsNoneOf, IsEmptyPair, IsOfVolume, IsSound};
ghost use Rattle.ficus_opening.specs.declared.check.checked.Checked.{Checked as CheckedValue};
ghost use Rattle.ficus_disk.specs.declared.pair.Pair.{Pair as PairValue};
ghost use Rattle.ficus_ids.specs.Members.{IsMember};
ghost use Rattle.ficus_keeper.specs.Kept.{found_in};
ghost use Rattle.ficus_stable_storage.specs.Leads.Holds.{Holds};
ghost use Rattle.ficus_runs.specs.Numbered.{IsNumbered};
ghost use Rattle.ficus_durable_state.specs.Saved.{FitsImage};
ghost use Rattle.ficus_durable_state.specs.declared.saved.Saved.{Saved as SavedValue};
ghost use Rattle.ficus_opening.specs.Calls.{ChecksDisks, JudgesPair};
ghost use Rattle.ficus_opening.specs.Fault.{checked_of};
ghost use Rattle.ficus_opening.specs.Opening.{IsBad, Opens};

use crate::WorldFault;
use crate::check::{Checked, soundness_of};
use crate::looking::look_at;
use crate::opening::open_one;
use ficus_disk::{Disk, Pair};
use ficus_keeper::Keep;
use ficus_stable_storage::Recovered;
use std::alloc::Global;

/// Judges what the disks of one replica hold, by what is said of this replica alone: nothing; something, and
/// nothing of its own with which a world may be opened; or what it saved, of which the numbers are told. There are
/// eight pairs, and `number` is from 1 to 8. It writes no byte, whatever it answers, though it may sync both disks;
/// and no other disk is asked for anything.
///
/// `Store` comes only where a disk of this replica failed, and wherever one did; `Occupied` and `Image` never come.
/// `Memory` may come at any time.
pub fn check_disks<K: Keep + Drop, D: Disk>(
    alloc: Global,
    disks: &mut Vec<Pair<D>>,
    number: u8,
) -> Result<Checked, WorldFault>
    requires pairs { length disks.old.items ≡ 8 }
    requires number { IsMember 8 number }
    ensures { ChecksDisks K.Keep D.Disk number result disks.old.items disks.new.items }
{
    let index = usize::from(number) - 1;
    check_one::<K, D>(alloc, &mut disks[index], number)
}

// Judges what the disks of one replica hold.
fn check_one<K: Keep + Drop, D: Disk>(
    alloc: Global,
    pair: &mut Pair<D>,
    number: u8,
) -> Result<Checked, WorldFault>
    ensures { JudgesPair K.Keep D.Disk number ⊤ result pair.old pair.new }
{
    if look_at(pair, number)? {
        return Ok(Checked::Empty);
    }
    judge::<K, D>(alloc, pair, number)
}

// Judges what the disks of one replica hold, of which one holds something.
fn judge<K: Keep + Drop, D: Disk>(
    alloc: Global,
    pair: &mut Pair<D>,
    number: u8,
) -> Result<Checked, WorldFault>
    ensures { JudgesPair K.Keep D.Disk number (IsEmptyPair D.seen pair.old → ⊥) result pair.old pair.new }
{
    checked_of(open_one::<K, D>(alloc, pair, number))
}

// What a check tells of what was opened: no image is damage, and any other fault is handed on as what it is.
fn checked_of<K: Keep + Drop>(
    opened: Result<Recovered<K>, WorldFault>,
) -> Result<Checked, WorldFault>
    requires { IfOk opened (λ found. FitsImage found.saved) }
    ensures { result ≡ checked_of opened }
{
    match opened {
        Ok(found) => Ok(soundness_of(&found.saved)),
        Err(WorldFault::Image(_)) => Ok(Checked::Damaged),
        Err(fault) => Err(fault),
    }
}

/// The law of what a check tells of an opening: with disks that it says are damaged no world is opened; and where it
/// says that disks are sound, and no world is opened with them, though one may be with the first member's, they are of
/// another volume than these. It does nothing when it runs.
pub fn checks_tell_of_openings<K: Keep + Drop, D: Disk>()
    ensures damaged { (disks : List (PairValue D)) (r : ℕ) (pair : PairValue D) → IsNumbered disks r pair
        → HoldsNoneOf K.kept D.seen r pair → IsBad K.kept D.seen disks r }
    ensures sound { (disks : List (PairValue D)) (first : SavedValue) (r : ℕ) (pair : PairValue D)
        (told : CheckedValue) → Opens K.kept D.seen disks first first 1 → IsNumbered disks r pair
        → IsSound K.kept D.seen r pair told → IsBad K.kept D.seen disks r
        → (saved : SavedValue) × Holds (found_in K.kept D.seen pair) saved × (IsOfVolume first saved → ⊥) }
{}
