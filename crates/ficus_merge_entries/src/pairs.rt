ghost use Rattle.std.specs.Prelude.{◌≡◌, ℕ, IfSome, IfNone};
ghost use Rattle.std.specs.Option.{option_copied};
ghost use Rattle.ficus_table.specs.SideBySide.{ArePassed, Passes, Sides};
ghost use Rattle.ficus_entry.specs.declared.entry.Entry.{Entry as EntryValue};
ghost use Rattle.ficus_entry.specs.Run.{next_call};
ghost use Rattle.ficus_merge_entries.specs.Pairs.{IsAtStart};
ghost use Rattle.ficus_merge_entries.specs.Runs.{id_of};

use ficus_entry::{InOrder, SharedEntry};
use ficus_table::{RowPair, SideBySide};
use std::marker::Model;

/// The entries of a taker and of a peer, read in pairs: under each identifier that one of them has, what both have.
/// How many calls were made is counted, so that it can be said of who reads them how often that is.
pub trait Pairs<'a> {
    /// The entries of both, and those of each that were passed.
    ghost sides: { Self → Sides EntryValue };

    /// How many calls were made. The count stands still at 2^64 - 1.
    ghost calls: { Self → ℕ };

    /// What both have under the lowest identifier that was not passed, which it passes, with the row of the peer's, if
    /// that is known; or `None` exactly where all entries were passed.
    fn next(&mut self) -> Option<RowPair<'a, SharedEntry>>
        ensures some { IfSome result (λ next. Passes id_of (sides self.old) (sides self.new)
            (option_copied next.pair.mine) (option_copied next.pair.theirs)) }
        ensures row { IfSome result (λ next. IfSome next.their_row (λ row.
            IfSome next.pair.theirs (λ theirs. row.now ≡ theirs.now))) }
        ensures none { IfNone result (ArePassed (sides self.old)) }
        ensures kept { IfNone result (sides self.new ≡ sides self.old) }
        ensures counted { calls self.new ≡ next_call (calls self.old) };
}

/// The entries of two lists in pairs, from the first on.
#[derive(Drop)]
pub struct PairWalk<'b, 'a> {
    walk: SideBySide<'b, 'a, SharedEntry>,
    calls: u64,
}

impl<'b, 'a> Model for PairWalk<'b, 'a> {
    ghost use Rattle.ficus_merge_entries.specs.Pairs.{Walking};

    ghost Value = { Walking };

    ghost view = { λ w. record { sides = w.walk; calls = w.calls } };
}

impl<'b, 'a> PairWalk<'b, 'a> {
    /// The entries of both, of which none was passed yet. Takes no memory.
    pub fn of(mine: &'b InOrder<'a>, theirs: &'b InOrder<'a>) -> PairWalk<'b, 'a>
        ensures mine { result.sides.mine ≡ mine.now }
        ensures theirs { result.sides.theirs ≡ theirs.now }
        ensures start { IsAtStart result.sides }
        ensures calls { result.calls ≡ 0 }
    {
        PairWalk {
            walk: SideBySide::of(mine.rows(), theirs.rows()),
            calls: 0,
        }
    }
}

impl<'b, 'a> Pairs<'a> for PairWalk<'b, 'a> {
    ghost sides = { λ walk. walk.sides };

    ghost calls = { λ walk. walk.calls };

    fn next(&mut self) -> Option<RowPair<'a, SharedEntry>> {
        self.calls = self.calls.saturating_add(1);
        self.walk.next_row_pair()
    }
}
