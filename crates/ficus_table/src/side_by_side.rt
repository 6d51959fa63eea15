ghost use Rattle.std.specs.Prelude.{◌≡◌, ◌<◌, ◌^◌, [], length, slice_get, IfSome, IfNone};
ghost use Rattle.std.specs.Option.{option_copied};
ghost use Rattle.ficus_ids.specs.Rising.{IsRisingBy};
ghost use Rattle.ficus_table.specs.SideBySide.{AreRising, AreLowest, Passes, ArePassed};

use crate::{InOrder, Row};
use std::cmp::Ordering;
use std::marker::Model;

/// What two tables hold under one identifier.
#[derive(Clone, Copy)]
pub struct Pair<'a, S> {
    pub mine: Option<&'a S>,
    pub theirs: Option<&'a S>,
}

/// What two tables hold under one identifier, and where theirs hold something the row that shows it, if known.
#[derive(Drop)]
pub struct RowPair<'a, R: Row> {
    pub pair: Pair<'a, R::Seen>,
    pub their_row: Option<&'a R>,
}

/// A walk along two tables side by side: under each identifier that one of them has, what both hold, by rising
/// identifiers. Contracts see the rows of both, and those of each that it has passed.
#[derive(Drop)]
pub struct SideBySide<'b, 'a, R: Row> {
    mine: &'b InOrder<'a, R>,
    theirs: &'b InOrder<'a, R>,
    mine_done: usize,
    theirs_done: usize,
}

impl<'b, 'a, R: Row> Model for SideBySide<'b, 'a, R> {
    ghost use Rattle.ficus_table.specs.SideBySide.{Sides};
    ghost use Rattle.ficus_table.specs.Walk.{sides_at, IsWalked};

    ghost Value = { Sides R.Seen };

    ghost view = { λ s. sides_at s.mine.now s.theirs.now s.mine_done s.theirs_done };

    ghost invariant = { λ s. IsWalked R.id_of s.mine.now s.theirs.now s.mine_done s.theirs_done };
}

impl<'b, 'a, R: Row> SideBySide<'b, 'a, R> {
    /// A walk that has passed no row.
    pub fn of(mine: &'b InOrder<'a, R>, theirs: &'b InOrder<'a, R>) -> SideBySide<'b, 'a, R>
        ensures mine { result.mine ≡ mine.now }
        ensures theirs { result.theirs ≡ theirs.now }
        ensures mine_passed { result.mine_passed ≡ [] }
        ensures theirs_passed { result.theirs_passed ≡ [] }
        ensures rising { AreRising R.id_of result }
    {
        // Tells that the identifiers rise.
        let _mine = mine.len();
        let _theirs = theirs.len();
        SideBySide {
            mine,
            theirs,
            mine_done: 0,
            theirs_done: 0,
        }
    }

    /// What both tables hold under the lowest identifier that the walk has not passed, or `None` exactly where it has
    /// passed all rows.
    pub fn next_pair(&mut self) -> Option<Pair<'a, R::Seen>>
        ensures some { IfSome result (λ pair.
            Passes R.id_of self.old self.new (option_copied pair.mine) (option_copied pair.theirs)) }
        ensures none { IfNone result (ArePassed self.old) }
        ensures kept { IfNone result (self.new ≡ self.old) }
    {
        match self.next_row_pair() {
            Some(next) => Some(next.pair),
            None => None,
        }
    }

    /// What [`next_pair`](SideBySide::next_pair) gives, with the row of theirs, where theirs were made
    /// [of rows](InOrder::of_rows).
    pub fn next_row_pair(&mut self) -> Option<RowPair<'a, R>>
        ensures some { IfSome result (λ next.
            Passes R.id_of self.old self.new (option_copied next.pair.mine) (option_copied next.pair.theirs)) }
        ensures row { IfSome result (λ next. IfSome next.their_row (λ row.
            IfSome next.pair.theirs (λ theirs. R.seen row.now ≡ theirs.now))) }
        ensures none { IfNone result (ArePassed self.old) }
        ensures kept { IfNone result (self.new ≡ self.old) }
    {
        let my_next = seen_at(self.mine, self.mine_done);
        let their_next = seen_at(self.theirs, self.theirs_done);
        if my_next.is_none() && their_next.is_none() {
            return None;
        }
        let their_row = self.theirs.row(self.theirs_done);
        let pair = lowest::<R>(my_next, their_next);
        self.mine_done += usize::from(pair.mine.is_some());
        self.theirs_done += usize::from(pair.theirs.is_some());
        Some(RowPair { pair, their_row })
    }
}

// Of the rows that come next in the two tables, those with the lower identifier.
#[tactic(auto, unfolding(ficus_ids::specs::Id::id_cmp))]
fn lowest<'a, R: Row>(mine: Option<&'a R::Seen>, theirs: Option<&'a R::Seen>) -> Pair<'a, R::Seen>
    ensures { AreLowest R.id_of (option_copied mine.entry) (option_copied theirs.entry)
        (option_copied result.mine) (option_copied result.theirs) }
{
    match (mine, theirs) {
        (Some(my), Some(their)) => match R::id(my).cmp(&R::id(their)) {
            Ordering::Less => Pair { mine, theirs: None },
            Ordering::Equal => Pair { mine, theirs },
            Ordering::Greater => Pair { mine: None, theirs },
        },
        _ => Pair { mine, theirs },
    }
}

fn seen_at<'a, R: Row>(rows: &InOrder<'a, R>, index: usize) -> Option<&'a R::Seen>
    ensures value { option_copied result ≡ slice_get rows.now index }
    ensures rising { IsRisingBy R.id_of rows.now }
    ensures countable { length rows.now < 2 ^ 64 }
{
    if index < rows.len() {
        Some(rows.at(index))
    } else {
        None
    }
}
