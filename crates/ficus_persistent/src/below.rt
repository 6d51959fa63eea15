ghost use Rattle.std.specs.Prelude.{◌≡◌, ◌<◌, ◌≤◌, ◌+◌, ◌^◌, ℕ, true, false, ◌++◌, length, take, drop, get_or, IfSome, IfOk};
ghost use Rattle.std.specs.List.Sorted.{IsPartitionedBy};
ghost use Rattle.ficus_persistent.specs.Node.{trees};
ghost use Rattle.ficus_persistent.specs.Shape.{joined, AreBelow};

use crate::row::{copies, with_other};
use crate::tree::{Grown, Tree};
use crate::{Cut, Spelled};
use ficus_ids::Memory;
use std::alloc::Global;

/// Where an item stands in a row of trees: in which of them, and at which index there.
#[derive(Clone, Copy)]
pub(crate) struct Place {
    pub(crate) child: usize,
    pub(crate) index: usize,
}

/// Where the item at an index stands.
pub(crate) fn locate<T: Spelled>(row: &[Tree<T>], index: usize) -> Place
    requires { index < length (joined row.now) }
    ensures child { result.child < length row.now }
    ensures index { length (joined (take result.child row.now)) + result.index ≡ index }
    ensures inside { index < length (joined (take (result.child + 1) row.now)) }
{
    let mut child = 0;
    let mut rest = index;
    while rest >= row[child].len() {
        rest -= row[child].len();
        child += 1;
    }
    Place { child, index: rest }
}

/// Where an item goes that is to stand at an index: behind the one in front of it.
pub(crate) fn locate_gap<T: Spelled>(row: &[Tree<T>], index: usize) -> Place
    requires some { 0 < length row.now }
    requires within { index ≤ length (joined row.now) }
    ensures child { result.child < length row.now }
    ensures index { length (joined (take result.child row.now)) + result.index ≡ index }
    ensures inside { index ≤ length (joined (take (result.child + 1) row.now)) }
{
    if index == 0 {
        return Place { child: 0, index: 0 };
    }
    let before = locate(row, index - 1);
    Place {
        child: before.child,
        index: before.index + 1,
    }
}

/// How many items there are, where a `u32` can tell.
pub(crate) fn counted<T: Spelled>(row: &[Tree<T>]) -> Option<u32>
    ensures { IfSome result (λ count. count ≡ length (joined row.now)) }
{
    let mut count: u32 = 0;
    for tree in row {
        count = count.checked_add(tree.count())?;
    }
    Some(count)
}

/// The tree that a cut goes through, with all items before it passing and all behind it failing.
pub(crate) fn cut_through<T: Spelled, C: Cut<T>>(row: &[Tree<T>], cut: &C, height: u8) -> usize
    requires some { 0 < length row.now }
    requires level { AreBelow height row.now }
    requires parted { IsPartitionedBy (C.is_before cut.now) (joined row.now) }
    ensures child { result < length row.now }
    ensures front { (k : ℕ) (d : T) → k < length (joined (take result row.now))
        → C.is_before cut.now (get_or (joined row.now) k d) ≡ true }
    ensures back { (k : ℕ) (d : T) → length (joined (take (result + 1) row.now)) ≤ k → k < length (joined row.now)
        → C.is_before cut.now (get_or (joined row.now) k d) ≡ false }
{
    let mut low = 0;
    let mut high = row.len();
    while low + 1 < high {
        let middle = low + (high - low) / 2;
        if cut.is_before(row[middle].first()) {
            low = middle;
        } else {
            high = middle;
        }
    }
    low
}

/// The row with what one of its trees became.
pub(crate) fn with_grown<T: Spelled>(
    alloc: Global,
    row: &[Tree<T>],
    child: usize,
    grown: Grown<Tree<T>>,
) -> Result<Vec<Tree<T>>, Memory>
    requires { child < length row.now }
    ensures { IfOk result (λ new. new.items ≡ take child row.now ++ (trees grown ++ drop (child + 1) row.now)) }
{
    match grown {
        Grown::One(tree) => with_other(alloc, row, child, tree),
        Grown::Two(first, second) => {
            let mut new = copies(alloc, row, 1)?;
            new[child] = first;
            new.insert(child + 1, second)?;
            Ok(new)
        }
    }
}

/// How many items there are, where a `u32` can tell.
pub(crate) fn count_of<T: Spelled>(row: &[Tree<T>]) -> usize
    requires { length (joined row.now) < 2 ^ 32 }
    ensures { result ≡ length (joined row.now) }
{
    let mut count = 0;
    for tree in row {
        count += tree.len();
    }
    count
}
