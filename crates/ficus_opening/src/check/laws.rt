ghost use Rattle.std.specs.Prelude.{◌≡◌, ℕ};
ghost use Rattle.ficus_opening.specs.Check.Judged.{IsJudged};
ghost use Rattle.ficus_opening.specs.declared.check.checked.Checked.{Checked};
ghost use Rattle.ficus_disk.specs.declared.pair.Pair.{Pair as PairValue};

use ficus_disk::Disk;
use ficus_keeper::Keep;
use ficus_stable_storage::one_saved;

/// The law that the disks of a replica are judged to be one thing at most. It does nothing when it runs.
pub fn one_judgement<K: Keep, D: Disk>()
    ensures { (r : ℕ) (pair : PairValue D) (one other : Checked) → IsJudged K.kept D.seen r pair one
        → IsJudged K.kept D.seen r pair other → one ≡ other }
{
    one_saved();
}
