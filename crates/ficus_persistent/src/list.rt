ghost use Rattle.std.specs.Prelude.{◌≡◌, ◌<◌, ◌≤◌, ◌+◌, ◌*◌, ◌^◌, [], ◌++◌, length, map};
ghost use Rattle.std.specs.Prelude.{slice_get, slice_set, Some, IfOk, OnErr, OnOk, IsTrue, ◌↔◌};
ghost use Rattle.std.specs.List.{insert, remove, flat_map, AllByRecursion};
ghost use Rattle.std.specs.List.Sorted.{IsPartitionedBy};
ghost use Rattle.ficus_formats.specs.Format.{Keeps};
ghost use Rattle.ficus_persistent.specs.Cut.{IsCutAt};

use crate::tree::Tree;
use crate::{Cut, Spelled};
use ficus_formats::{Window, WindowSpelling};
use ficus_ids::Memory;
use std::alloc::Global;
use std::marker::Model;

/// A list. A copy shares all nodes with it, and a change makes only those on one way down anew. The nodes are a
/// search tree by place, with up to 32 items in a leaf and up to 32 nodes below one, and all leaves at one height
/// (Bayer and McCreight 1972), so no way down is longer than [`height`](PersistentList::height) says.
#[derive(Drop)]
pub struct PersistentList<T: Spelled> {
    tree: Tree<T>,
}

impl<T: Spelled> Model for PersistentList<T> {
    ghost use Rattle.std.specs.Prelude.{List};

    ghost Value = { List T };

    ghost view = { λ list. list.tree.items };
}

impl<T: Spelled> PersistentList<T> {
    /// No items. Takes no memory.
    pub fn new() -> PersistentList<T>
        ensures { result ≡ [] }
    {
        PersistentList { tree: Tree::new() }
    }

    /// How many items there are.
    pub fn len(&self) -> usize
        ensures { result ≡ length self.now }
    {
        self.tree.len()
    }

    /// Whether there are no items.
    pub fn is_empty(&self) -> bool
        ensures { IsTrue result ↔ (self.now ≡ []) }
    {
        self.tree.is_empty()
    }

    /// How many nodes lie one below the other: at most twice the binary logarithm of one more than the length.
    pub fn height(&self) -> u8
        ensures { 2 ^ result ≤ (length self.now + 1) * (length self.now + 1) }
    {
        self.tree.height()
    }

    /// A list of these items, which shares all nodes with this one. No item is copied.
    pub fn copy(&self) -> Result<PersistentList<T>, Memory>
        ensures { IfOk result (λ list. list ≡ self.now) }
    {
        let tree = self.tree.copy()?;
        Ok(PersistentList { tree })
    }

    /// The item at an index.
    pub fn at(&self, index: usize) -> &T
        requires { index < length self.now }
        ensures { slice_get self.now index ≡ Some result.now }
    {
        self.tree.at(index)
    }

    /// How many items lie before the cut, where the list has none of them behind one that doesn't.
    pub fn partition_point<C: Cut<T>>(&self, cut: &C) -> usize
        requires { IsPartitionedBy (C.is_before cut.now) self.now }
        ensures within { result ≤ length self.now }
        ensures point { IsCutAt (C.is_before cut.now) self.now result }
    {
        self.tree.partition_point(cut)
    }

    /// Appends the items in order to those gathered before.
    pub fn gather<'a>(&'a self, gathered: &mut Vec<&'a T>) -> Result<(), Memory>
        ensures { OnOk result (map (λ item. item.now) gathered.new.items
            ≡ map (λ item. item.now) gathered.old.items ++ self.now) }
    {
        self.tree.gather(gathered)
    }

    /// Appends the spellings of the items, one after the other. What stands beside items that changes put in isn't
    /// spelled anew. After `Memory` part of them may stand there.
    pub fn put_spelled(&self, out: &mut Vec<u8>) -> Result<(), Memory>
        ensures put { OnOk result (out.new.items ≡ out.old.items ++ flat_map T.spell self.now) }
        ensures kept { OnErr result (Keeps out.old.items out.new.items) }
    {
        self.tree.put_spelled(out)
    }

    /// Appends spellings of the items that hang on more than the items, one after the other, in one walk. After
    /// `Memory` part of them may stand there.
    pub fn put_each<S: WindowSpelling<Value = T>>(
        &self,
        spelling: &S,
        out: &mut Vec<u8>,
    ) -> Result<(), Memory>
        requires { AllByRecursion (S.Spelling.format spelling.now).fits self.now }
        ensures put { OnOk result
            (out.new.items ≡ out.old.items ++ flat_map (S.Spelling.format spelling.now).spell self.now) }
        ensures kept { OnErr result (Keeps out.old.items out.new.items) }
    {
        let mut window = Window::new();
        self.tree.put_each(spelling, &mut window, out)?;
        window.flush(out)
    }

    /// The list with one more item, in front of the one at the index.
    pub fn insert(&self, alloc: Global, index: usize, item: T) -> Result<PersistentList<T>, Memory>
        requires { index ≤ length self.now }
        ensures { IfOk result (λ list. list ≡ insert self.now index item) }
    {
        let tree = self.tree.insert(alloc, index, item)?;
        Ok(PersistentList { tree })
    }

    /// The list with another item at the index, or the same list where the index isn't below the length.
    pub fn put(&self, alloc: Global, index: usize, item: T) -> Result<PersistentList<T>, Memory>
        ensures { IfOk result (λ list. list ≡ slice_set self.now index item) }
    {
        let tree = self.tree.put(alloc, index, item)?;
        Ok(PersistentList { tree })
    }

    /// The list without the item at the index.
    pub fn remove(&self, alloc: Global, index: usize) -> Result<PersistentList<T>, Memory>
        requires { index < length self.now }
        ensures { IfOk result (λ list. list ≡ remove self.now index) }
    {
        let tree = self.tree.remove(alloc, index)?;
        Ok(PersistentList { tree })
    }

    /// The items of a slice, in full nodes. It takes the least memory: no spelling stands beside them.
    pub fn of(alloc: Global, items: &[T]) -> Result<PersistentList<T>, Memory>
        ensures { IfOk result (λ list. list ≡ items.now) }
    {
        let tree = Tree::of(alloc, items)?;
        Ok(PersistentList { tree })
    }
}
