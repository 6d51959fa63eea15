ghost use Rattle.std.specs.Prelude.{◌≡◌, ◌<◌, ◌≤◌, ◌+◌, ◌*◌, ◌^◌, ℕ, ◌≢◌, ◌-◌, [], ◌∷◌, ◌++◌, length, map, take, drop};
ghost use Rattle.std.specs.Prelude.{slice_get, slice_set, Some, IfOk, OnErr, OnOk, IsTrue, ◌↔◌};
ghost use Rattle.std.specs.List.{insert, remove, flat_map, AllByRecursion};
ghost use Rattle.std.specs.List.Sorted.{IsPartitionedBy};
ghost use Rattle.ficus_formats.specs.Format.{Keeps};
ghost use Rattle.ficus_persistent.specs.Cut.{IsCutAt};
ghost use Rattle.ficus_persistent.specs.Shape.{nothing, joined, IsBelow, AreBelow, IsAtMostOneAbove, IsLow};
ghost use Rattle.ficus_persistent.specs.Node.{trees};

use crate::below::{count_of, counted, cut_through, locate, locate_gap, with_grown};
use crate::leaf::Leaf;
use crate::row::{copies, cut_in, cut_off, gather_all, put_all, with, with_other, without};
use crate::{Cut, Item, Spelled};
use ficus_formats::{Window, WindowSpelling};
use ficus_ids::Memory;
use std::alloc::Global;
use std::marker::Model;
use std::rc::Rc;

// How many items a leaf has at the most, and how many trees stand below a fork.
const WIDTH: usize = 32;

/// A search tree by place, with its items in leaves that all stand at one height (Bayer and McCreight 1972). Contracts
/// see its items in order and its height.
#[cycle(tree)]
#[derive(Drop)]
pub(crate) struct Tree<T: Spelled> {
    node: Node<T>,
    count: u32,
    height: u8,
}

#[cycle(tree)]
#[derive(Drop)]
enum Node<T: Spelled> {
    Empty,
    Leaf(Rc<Leaf<T>>),
    Fork(Rc<Vec<Tree<T>>>),
}

/// What a tree became that had an item put into it: one tree, or two of its height side by side.
#[derive(Drop)]
pub(crate) enum Grown<X> {
    One(X),
    Two(X, X),
}

impl<T: Spelled> Model for Tree<T> {
    ghost use Rattle.std.specs.Prelude.{◌≡◌, length};
    ghost use Rattle.ficus_persistent.specs.Shape.{Shape};

    ghost Value = { Shape T };

    ghost use Rattle.ficus_persistent.specs.Node.{items_of, IsSound};

    ghost view = { λ tree. record { items = items_of tree.node; height = tree.height } };

    ghost invariant = { λ tree. (tree.count ≡ length (items_of tree.node)) × IsSound tree.height tree.node };

    ghost size = { λ shape. shape.height };

    ghost use Rattle.std.proofs.Common.{arith};
    ghost use Rattle.ficus_persistent.specs.Falls.{depth_le_height};

    ghost size_decreases = { λ t h. Prim.omega (arith, depth_le_height T.Spelled t.height t.node h.1) };
}

impl<T: Spelled> Item for Tree<T> {
    fn copied(&self) -> Result<Tree<T>, Memory>
        ensures { IfOk result (λ tree. tree ≡ self.now) }
    {
        self.copy()
    }
}

impl<T: Spelled> Tree<T> {
    /// No items. Takes no memory.
    pub(crate) fn new() -> Tree<T>
        ensures { result ≡ nothing }
    {
        Tree {
            node: Node::Empty,
            count: 0,
            height: 0,
        }
    }

    /// How many items there are.
    pub(crate) fn len(&self) -> usize
        ensures { result ≡ length self.now.items }
    {
        self.count as usize
    }

    /// How many items there are, as a number that a node stores.
    pub(crate) fn count(&self) -> u32
        ensures { result ≡ length self.now.items }
    {
        self.count
    }

    /// Whether there are no items.
    pub(crate) fn is_empty(&self) -> bool
        ensures items { IsTrue result ↔ (self.now.items ≡ []) }
        ensures height { IsTrue result ↔ (self.now.height ≡ 0) }
    {
        self.count == 0
    }

    /// How many nodes lie one below the other.
    pub(crate) fn height(&self) -> u8
        ensures is { result ≡ self.now.height }
        ensures low { IsLow (length self.now.items) self.now.height }
        ensures filled { 0 < self.now.height → 2 ^ self.now.height ≤ 2 * length self.now.items }
        // Since no more than 2^32 - 1 items are counted.
        ensures fits { result ≤ 64 }
    {
        let _count = self.count;
        self.height
    }

    /// A tree of these items, which shares all nodes with this one. No item is copied.
    pub(crate) fn copy(&self) -> Result<Tree<T>, Memory>
        ensures { IfOk result (λ tree. tree ≡ self.now) }
    {
        let node = match &self.node {
            Node::Empty => Node::Empty,
            Node::Leaf(leaf) => {
                let leaf = leaf.clone()?;
                Node::Leaf(leaf)
            }
            Node::Fork(below) => {
                let below = below.clone()?;
                Node::Fork(below)
            }
        };
        Ok(Tree {
            node,
            count: self.count,
            height: self.height,
        })
    }

    /// The item at an index.
    pub(crate) fn at(&self, index: usize) -> &T
        requires { index < length self.now.items }
        ensures { slice_get self.now.items index ≡ Some result.now }
    {
        match &self.node {
            Node::Empty => unreachable!(),
            Node::Leaf(leaf) => {
                let items = leaf.as_ref().items();
                &items[index]
            }
            Node::Fork(below) => {
                let below = below.as_ref().as_slice();
                let place = locate(below, index);
                below[place.child].at(place.index)
            }
        }
    }

    /// The first item.
    pub(crate) fn first(&self) -> &T
        requires { 0 < length self.now.items }
        ensures { slice_get self.now.items 0 ≡ Some result.now }
    {
        match &self.node {
            Node::Empty => unreachable!(),
            Node::Leaf(leaf) => {
                let items = leaf.as_ref().items();
                &items[0]
            }
            Node::Fork(below) => {
                let below = below.as_ref().as_slice();
                below[0].first()
            }
        }
    }

    /// How many items lie before the cut, where the tree has none of them behind one that doesn't.
    pub(crate) fn partition_point<C: Cut<T>>(&self, cut: &C) -> usize
        requires { IsPartitionedBy (C.is_before cut.now) self.now.items }
        ensures within { result ≤ length self.now.items }
        ensures point { IsCutAt (C.is_before cut.now) self.now.items result }
    {
        let _whole = self.count();
        match &self.node {
            Node::Empty => 0,
            Node::Leaf(leaf) => cut_in(leaf.as_ref().items(), cut),
            Node::Fork(below) => {
                let below = below.as_ref().as_slice();
                let child = cut_through(below, cut, self.height);
                let before = count_of(&below[..child]);
                before + below[child].partition_point(cut)
            }
        }
    }

    /// Appends the items in order to those gathered before.
    pub(crate) fn gather<'a>(&'a self, gathered: &mut Vec<&'a T>) -> Result<(), Memory>
        ensures { OnOk result (map (λ item. item.now) gathered.new.items
            ≡ map (λ item. item.now) gathered.old.items ++ self.now.items) }
    {
        match &self.node {
            Node::Empty => Ok(()),
            Node::Leaf(leaf) => gather_all(leaf.as_ref().items(), gathered),
            Node::Fork(below) => {
                let below = below.as_ref().as_slice();
                for tree in below {
                    tree.gather(gathered)?;
                }
                Ok(())
            }
        }
    }

    /// Puts the spellings of the items in order behind what was spelled before.
    pub(crate) fn put_each<S: WindowSpelling<Value = T>>(
        &self,
        spelling: &S,
        window: &mut Window,
        out: &mut Vec<u8>,
    ) -> Result<(), Memory>
        requires { AllByRecursion (S.Spelling.format spelling.now).fits self.now.items }
        ensures put { OnOk result (out.new.items ++ window.new ≡ (out.old.items ++ window.old)
            ++ flat_map (S.Spelling.format spelling.now).spell self.now.items) }
        ensures kept { Keeps out.old.items out.new.items }
    {
        match &self.node {
            Node::Empty => Ok(()),
            Node::Leaf(leaf) => put_all(leaf.as_ref().items(), spelling, window, out),
            Node::Fork(below) => {
                let below = below.as_ref().as_slice();
                for tree in below {
                    tree.put_each(spelling, window, out)?;
                }
                Ok(())
            }
        }
    }

    /// Appends the spellings of the items in order.
    pub(crate) fn put_spelled(&self, out: &mut Vec<u8>) -> Result<(), Memory>
        ensures put { OnOk result (out.new.items ≡ out.old.items ++ flat_map T.spell self.now.items) }
        ensures kept { OnErr result (Keeps out.old.items out.new.items) }
    {
        match &self.node {
            Node::Empty => Ok(()),
            Node::Leaf(leaf) => leaf.as_ref().put(out),
            Node::Fork(below) => {
                let below = below.as_ref().as_slice();
                for tree in below {
                    tree.put_spelled(out)?;
                }
                Ok(())
            }
        }
    }

    /// The tree with one more item, in front of the one at the index.
    pub(crate) fn insert(&self, alloc: Global, index: usize, item: T) -> Result<Tree<T>, Memory>
        requires { index ≤ length self.now.items }
        ensures { IfOk result (λ tree. tree.items ≡ insert self.now.items index item) }
    {
        if self.is_empty() {
            return Tree::single(alloc, item);
        }
        let height = self.height() + 1;
        match self.grown(alloc, index, item)? {
            Grown::One(tree) => Ok(tree),
            Grown::Two(first, second) => Tree::above(alloc, first, second, height),
        }
    }

    // The same, or two trees of its height, one behind the other.
    fn grown(&self, alloc: Global, index: usize, item: T) -> Result<Grown<Tree<T>>, Memory>
        requires some { 0 < length self.now.items }
        requires within { index ≤ length self.now.items }
        ensures items { IfOk result (λ grown. joined (trees grown) ≡ insert self.now.items index item) }
        ensures level { IfOk result (λ grown. AreBelow (self.now.height + 1) (trees grown)) }
    {
        match &self.node {
            Node::Empty => unreachable!(),
            Node::Leaf(leaf) => {
                let leaf = leaf.as_ref().with(alloc, index, item)?;
                Tree::leaves(alloc, leaf, index)
            }
            Node::Fork(below) => {
                let below = below.as_ref().as_slice();
                let place = locate_gap(below, index);
                let grown = below[place.child].grown(alloc, place.index, item)?;
                let row = with_grown(alloc, below, place.child, grown)?;
                Tree::forks(alloc, row, self.height, place.child + 1)
            }
        }
    }

    /// The tree with another item at the index, or the same tree where the index isn't below the length.
    pub(crate) fn put(&self, alloc: Global, index: usize, item: T) -> Result<Tree<T>, Memory>
        ensures items { IfOk result (λ tree. tree.items ≡ slice_set self.now.items index item) }
        ensures height { IfOk result (λ tree. tree.height ≡ self.now.height) }
    {
        if index >= self.len() {
            return self.copy();
        }
        match &self.node {
            Node::Empty => unreachable!(),
            Node::Leaf(leaf) => {
                let leaf = leaf.as_ref().with_other(alloc, index, item)?;
                Tree::leaf(alloc, leaf)
            }
            Node::Fork(below) => {
                let below = below.as_ref().as_slice();
                let place = locate(below, index);
                let tree = below[place.child].put(alloc, place.index, item)?;
                let row = with_other(alloc, below, place.child, tree)?;
                Tree::fork(alloc, row, self.height)
            }
        }
    }

    /// The tree without the item at the index.
    pub(crate) fn remove(&self, alloc: Global, index: usize) -> Result<Tree<T>, Memory>
        requires { index < length self.now.items }
        ensures items { IfOk result (λ tree. tree.items ≡ remove self.now.items index) }
        ensures height { IfOk result (λ tree. IsAtMostOneAbove tree.height self.now.height) }
    {
        match &self.node {
            Node::Empty => unreachable!(),
            Node::Leaf(leaf) => {
                let leaf = leaf.as_ref().without(alloc, index)?;
                Tree::leaf_or_none(alloc, leaf)
            }
            Node::Fork(below) => {
                let below = below.as_ref().as_slice();
                let place = locate(below, index);
                let less = below[place.child].remove(alloc, place.index)?;
                let row = Tree::with_less(alloc, below, place.child, less, self.height)?;
                Tree::fork_or_one(alloc, row, self.height)
            }
        }
    }

    /// The items of a slice, in full nodes.
    pub(crate) fn of(alloc: Global, items: &[T]) -> Result<Tree<T>, Memory>
        ensures { IfOk result (λ tree. tree.items ≡ items.now) }
    {
        if items.is_empty() {
            return Ok(Tree::new());
        }
        let mut row = Tree::row_of(alloc, items)?;
        while row.len() > 1 {
            row = Tree::row_above(alloc, &row)?;
        }
        Ok(row.remove(0))
    }

    // Full leaves of the items of a slice.
    fn row_of(alloc: Global, items: &[T]) -> Result<Vec<Tree<T>>, Memory>
        requires { 0 < length items.now }
        ensures some { IfOk result (λ row. 0 < length row.items) }
        ensures items { IfOk result (λ row. joined row.items ≡ items.now) }
        ensures level { IfOk result (λ row. AreBelow 2 row.items) }
    {
        let mut row = Vec::with_capacity(alloc, items.len() / WIDTH + 1)?;
        let mut from = 0;
        while from < items.len() {
            let end = from + WIDTH.min(items.len() - from);
            let part = copies(alloc, &items[from..end], 0)?;
            let leaf = Tree::leaf(alloc, Leaf::of(part))?;
            row.push(leaf)?;
            from = end;
        }
        Ok(row)
    }

    // The trees of a row, below full nodes.
    fn row_above(alloc: Global, row: &[Tree<T>]) -> Result<Vec<Tree<T>>, Memory>
        requires several { 2 ≤ length row.now }
        requires level { (height : ℕ) × AreBelow height row.now }
        ensures some { IfOk result (λ above. 0 < length above.items) }
        ensures shorter { IfOk result (λ above. length above.items < length row.now) }
        ensures items { IfOk result (λ above. joined above.items ≡ joined row.now) }
        ensures level { IfOk result (λ above. (height : ℕ) × AreBelow height above.items) }
    {
        let height = row[0].height() + 1;
        let mut above = Vec::with_capacity(alloc, row.len() / WIDTH + 1)?;
        let mut from = 0;
        while from < row.len() {
            let end = from + few_of(row.len() - from);
            let part = copies(alloc, &row[from..end], 0)?;
            let fork = Tree::fork(alloc, part, height)?;
            above.push(fork)?;
            from = end;
        }
        Ok(above)
    }

    // One item.
    fn single(alloc: Global, item: T) -> Result<Tree<T>, Memory>
        ensures { IfOk result (λ tree. tree.items ≡ item ∷ []) }
    {
        let leaf = Leaf::of(Vec::new(alloc));
        Tree::leaf(alloc, leaf.with(alloc, 0, item)?)
    }

    // The tree of a leaf.
    fn leaf(alloc: Global, leaf: Leaf<T>) -> Result<Tree<T>, Memory>
        requires some { 1 ≤ length leaf }
        requires few { length leaf ≤ 32 }
        ensures items { IfOk result (λ tree. tree.items ≡ leaf) }
        ensures height { IfOk result (λ tree. tree.height ≡ 1) }
    {
        let count = leaf.len() as u32;
        let leaf = Rc::new(alloc, leaf)?;
        Ok(Tree {
            node: Node::Leaf(leaf),
            count,
            height: 1,
        })
    }

    // The same, or no items.
    fn leaf_or_none(alloc: Global, leaf: Leaf<T>) -> Result<Tree<T>, Memory>
        requires { length leaf ≤ 32 }
        ensures items { IfOk result (λ tree. tree.items ≡ leaf) }
        ensures height { IfOk result (λ tree. tree.height ≤ 1) }
    {
        if leaf.len() == 0 {
            Ok(Tree::new())
        } else {
            Tree::leaf(alloc, leaf)
        }
    }

    // The tree of a leaf, or two where it has an item too many, of which the one at the index is new.
    fn leaves(alloc: Global, leaf: Leaf<T>, index: usize) -> Result<Grown<Tree<T>>, Memory>
        requires some { 1 ≤ length leaf }
        requires few { length leaf ≤ 33 }
        ensures items { IfOk result (λ grown. joined (trees grown) ≡ leaf) }
        ensures level { IfOk result (λ grown. AreBelow 2 (trees grown)) }
    {
        if leaf.len() <= WIDTH {
            let tree = Tree::leaf(alloc, leaf)?;
            return Ok(Grown::One(tree));
        }
        let (front, behind) = leaf.parted(index)?;
        let first = Tree::leaf(alloc, front)?;
        let second = Tree::leaf(alloc, behind)?;
        Ok(Grown::Two(first, second))
    }

    // A fork above these trees. Its leaves have blocks of their own, so items that a `u32` can't count would take more
    // than four gigabytes: that they can't be counted is want of memory.
    fn fork(alloc: Global, below: Vec<Tree<T>>, height: u8) -> Result<Tree<T>, Memory>
        requires several { 2 ≤ length below.items }
        requires few { length below.items ≤ 32 }
        requires level { AreBelow height below.items }
        ensures items { IfOk result (λ tree. tree.items ≡ joined below.items) }
        ensures height { IfOk result (λ tree. tree.height ≡ height) }
    {
        let count = counted(&below).ok_or(Memory)?;
        let below = Rc::new(alloc, below)?;
        Ok(Tree {
            node: Node::Fork(below),
            count,
            height,
        })
    }

    // The same, or the one tree that there is.
    fn fork_or_one(alloc: Global, below: Vec<Tree<T>>, height: u8) -> Result<Tree<T>, Memory>
        requires some { 1 ≤ length below.items }
        requires few { length below.items ≤ 32 }
        requires level { AreBelow height below.items }
        ensures items { IfOk result (λ tree. tree.items ≡ joined below.items) }
        ensures height { IfOk result (λ tree. IsAtMostOneAbove tree.height height) }
    {
        let mut below = below;
        if below.len() == 1 {
            Ok(below.remove(0))
        } else {
            Tree::fork(alloc, below, height)
        }
    }

    // A fork above these trees, or two where they are one too many, of which the one at the index is new.
    fn forks(
        alloc: Global,
        below: Vec<Tree<T>>,
        height: u8,
        index: usize,
    ) -> Result<Grown<Tree<T>>, Memory>
        requires several { 2 ≤ length below.items }
        requires few { length below.items ≤ 33 }
        requires level { AreBelow height below.items }
        ensures items { IfOk result (λ grown. joined (trees grown) ≡ joined below.items) }
        ensures level { IfOk result (λ grown. AreBelow (height + 1) (trees grown)) }
    {
        let mut below = below;
        if below.len() <= WIDTH {
            let fork = Tree::fork(alloc, below, height)?;
            return Ok(Grown::One(fork));
        }
        let behind = cut_off(&mut below, index)?;
        let first = Tree::fork(alloc, below, height)?;
        let second = Tree::fork(alloc, behind, height)?;
        Ok(Grown::Two(first, second))
    }

    // A fork above two trees.
    fn above(alloc: Global, first: Tree<T>, second: Tree<T>, height: u8) -> Result<Tree<T>, Memory>
        requires { AreBelow height (first ∷ second ∷ []) }
        ensures items { IfOk result (λ tree. tree.items ≡ first.items ++ second.items) }
        ensures height { IfOk result (λ tree. tree.height ≡ height) }
    {
        let mut below = Vec::with_capacity(alloc, 2)?;
        below.push(first)?;
        below.push(second)?;
        Tree::fork(alloc, below, height)
    }

    // The row with what one of its trees became by a removal. What is too low to stand in it is put below a neighbour.
    fn with_less(
        alloc: Global,
        row: &[Tree<T>],
        child: usize,
        less: Tree<T>,
        height: u8,
    ) -> Result<Vec<Tree<T>>, Memory>
        requires child { child < length row.now }
        requires several { 2 ≤ length row.now }
        requires level { AreBelow height row.now }
        requires near { IsAtMostOneAbove (less.height + 1) height }
        ensures some { IfOk result (λ new. 1 ≤ length new.items) }
        ensures few { IfOk result (λ new. length new.items ≤ length row.now) }
        ensures level { IfOk result (λ new. AreBelow height new.items) }
        ensures items { IfOk result (λ new. joined new.items
            ≡ joined (take child row.now) ++ (less.items ++ joined (drop (child + 1) row.now))) }
    {
        if less.is_empty() {
            without(alloc, row, child)
        } else if less.height() + 1 == height {
            with_other(alloc, row, child, less)
        } else if child == 0 {
            let grown = row[1].with_front(alloc, less)?;
            with_grown(alloc, &row[1..], 0, grown)
        } else {
            let grown = row[child - 1].with_behind(alloc, less)?;
            let rest = without(alloc, row, child)?;
            with_grown(alloc, &rest, child - 1, grown)
        }
    }

    // With one more tree below it, in front of the others.
    fn with_front(&self, alloc: Global, front: Tree<T>) -> Result<Grown<Tree<T>>, Memory>
        requires { IsBelow self.now.height front }
        ensures items { IfOk result (λ grown. joined (trees grown) ≡ front.items ++ self.now.items) }
        ensures level { IfOk result (λ grown. AreBelow (self.now.height + 1) (trees grown)) }
    {
        match &self.node {
            Node::Empty | Node::Leaf(_) => unreachable!(),
            Node::Fork(below) => {
                let row = with(alloc, below.as_ref(), 0, front)?;
                Tree::forks(alloc, row, self.height, 0)
            }
        }
    }

    // With one more tree below it, behind the others.
    fn with_behind(&self, alloc: Global, behind: Tree<T>) -> Result<Grown<Tree<T>>, Memory>
        requires { IsBelow self.now.height behind }
        ensures items { IfOk result (λ grown. joined (trees grown) ≡ self.now.items ++ behind.items) }
        ensures level { IfOk result (λ grown. AreBelow (self.now.height + 1) (trees grown)) }
    {
        match &self.node {
            Node::Empty | Node::Leaf(_) => unreachable!(),
            Node::Fork(below) => {
                let row = with(alloc, below.as_ref(), below.len(), behind)?;
                Tree::forks(alloc, row, self.height, 0)
            }
        }
    }
}

// How many of the trees of a row stand below the next node, so that of the others there is none or more than one.
fn few_of(count: usize) -> usize
    requires { 2 ≤ count }
    ensures several { 2 ≤ result }
    ensures few { result ≤ 32 }
    ensures within { result ≤ count }
    ensures rest { count - result ≢ 1 }
{
    if count == WIDTH + 1 {
        WIDTH - 1
    } else {
        count.min(WIDTH)
    }
}
