ghost use Rattle.std.specs.Prelude.{◌≡◌, ◌≤◌, ◌<◌, ◌++◌, ◌∷◌, length, take, drop, slice_set, List, IfOk, IfSome, OnErr, OnOk};
ghost use Rattle.std.specs.List.{insert, remove, flat_map};
ghost use Rattle.ficus_formats.specs.Format.{Keeps};

use crate::Spelled;
use crate::row::{cut_off, with, with_other, without};
use ficus_formats::put_bytes;
use ficus_ids::Memory;
use std::alloc::Global;
use std::marker::Model;

/// The items of a leaf in order. A leaf that had an item put into it keeps their spelling beside them, so that who
/// spells a list goes over what changed alone; one that was built at once doesn't, which spares the memory. Contracts
/// see the items.
#[derive(Drop)]
pub(crate) struct Leaf<T: Spelled> {
    items: Vec<T>,
    spelled: Option<Vec<u8>>,
}

impl<T: Spelled> Model for Leaf<T> {
    ghost use Rattle.std.specs.Prelude.{List, ◌≡◌, IfSome};
    ghost use Rattle.std.specs.List.{flat_map};

    ghost Value = { List T };

    ghost view = { λ leaf. leaf.items.items };

    ghost invariant = { λ leaf. IfSome leaf.spelled (λ bytes. bytes.items ≡ flat_map T.spell leaf.items.items) };
}

impl<T: Spelled> Leaf<T> {
    /// A leaf of these items, without their spelling.
    pub(crate) fn of(items: Vec<T>) -> Leaf<T>
        ensures { result ≡ items.items }
    {
        Leaf {
            items,
            spelled: None,
        }
    }

    /// The items.
    pub(crate) fn items(&self) -> &[T]
        ensures { result.now ≡ self.now }
    {
        self.items.as_slice()
    }

    /// How many items there are.
    pub(crate) fn len(&self) -> usize
        ensures { result ≡ length self.now }
    {
        self.items.len()
    }

    /// Appends the spellings of the items in order.
    pub(crate) fn put(&self, out: &mut Vec<u8>) -> Result<(), Memory>
        ensures put { OnOk result (out.new.items ≡ out.old.items ++ flat_map T.spell self.now) }
        ensures kept { OnErr result (Keeps out.old.items out.new.items) }
    {
        match &self.spelled {
            Some(bytes) => put_bytes(out, bytes),
            None => put_all(&self.items, out),
        }
    }

    /// The leaf with one more item, in front of the one at the index.
    pub(crate) fn with(&self, alloc: Global, index: usize, item: T) -> Result<Leaf<T>, Memory>
        requires { index ≤ length self.now }
        ensures { IfOk result (λ leaf. leaf ≡ insert self.now index item) }
    {
        let bytes = self.spelled_with(alloc, index, index, &item)?;
        let items = with(alloc, &self.items, index, item)?;
        Ok(Leaf {
            items,
            spelled: Some(bytes),
        })
    }

    /// The leaf with another item at the index.
    pub(crate) fn with_other(&self, alloc: Global, index: usize, item: T) -> Result<Leaf<T>, Memory>
        requires { index < length self.now }
        ensures { IfOk result (λ leaf. leaf ≡ slice_set self.now index item) }
    {
        let _count = self.len();
        let bytes = self.spelled_with(alloc, index, index + 1, &item)?;
        let items = with_other(alloc, &self.items, index, item)?;
        Ok(Leaf {
            items,
            spelled: Some(bytes),
        })
    }

    /// The leaf without the item at the index.
    pub(crate) fn without(&self, alloc: Global, index: usize) -> Result<Leaf<T>, Memory>
        requires { index < length self.now }
        ensures { IfOk result (λ leaf. leaf ≡ remove self.now index) }
    {
        let items = without(alloc, &self.items, index)?;
        Ok(Leaf::of(items))
    }

    /// Two leaves of the items, which are one too many. The one at the index is new.
    pub(crate) fn parted(self, index: usize) -> Result<(Leaf<T>, Leaf<T>), Memory>
        requires { length self ≡ 33 }
        ensures parts { IfOk result (λ parts. parts.0 ++ parts.1 ≡ self) }
        ensures front { IfOk result (λ parts. 2 ≤ length parts.0) }
        ensures behind { IfOk result (λ parts. 2 ≤ length parts.1) }
    {
        let mut items = self.items;
        let behind = cut_off(&mut items, index)?;
        let (bytes, bytes_behind) = bytes_parted(self.spelled, &items)?;
        let front = Leaf {
            items,
            spelled: bytes,
        };
        let behind = Leaf {
            items: behind,
            spelled: bytes_behind,
        };
        Ok((front, behind))
    }

    // The spelling with an item in place of those from one index to another.
    fn spelled_with(
        &self,
        alloc: Global,
        from: usize,
        to: usize,
        item: &T,
    ) -> Result<Vec<u8>, Memory>
        requires order { from ≤ to }
        requires within { to ≤ length self.now }
        ensures { IfOk result (λ bytes. bytes.items
            ≡ flat_map T.spell (take from self.now ++ (item.now ∷ drop to self.now))) }
    {
        match &self.spelled {
            Some(bytes) => {
                let end = bytes.len() - extent(&self.items[to..])?;
                let start = end - extent(&self.items[from..to])?;
                between(alloc, &bytes[..start], item, &bytes[end..])
            }
            None => spelled_anew(alloc, &self.items[..from], item, &self.items[to..]),
        }
    }
}

// The spelling of an item between what stands before and behind it.
fn between<T: Spelled>(
    alloc: Global,
    before: &[u8],
    item: &T,
    behind: &[u8],
) -> Result<Vec<u8>, Memory>
    ensures { IfOk result (λ bytes. bytes.items ≡ before.now ++ (T.spell item.now ++ behind.now)) }
{
    let count = before.len().saturating_add(behind.len());
    let mut bytes = Vec::with_capacity(alloc, count.saturating_add(item.spelled_len()))?;
    put_bytes(&mut bytes, before)?;
    item.put(&mut bytes)?;
    put_bytes(&mut bytes, behind)?;
    Ok(bytes)
}

// The spelling of an item between others.
fn spelled_anew<T: Spelled>(
    alloc: Global,
    before: &[T],
    item: &T,
    behind: &[T],
) -> Result<Vec<u8>, Memory>
    ensures { IfOk result (λ bytes. bytes.items ≡ flat_map T.spell (before.now ++ (item.now ∷ behind.now))) }
{
    let mut bytes = Vec::new(alloc);
    put_all(before, &mut bytes)?;
    item.put(&mut bytes)?;
    put_all(behind, &mut bytes)?;
    Ok(bytes)
}

// The spelling of items in front, and that of those behind them, where both stand one behind the other.
fn bytes_parted<T: Spelled>(
    bytes: Option<Vec<u8>>,
    front: &[T],
) -> Result<(Option<Vec<u8>>, Option<Vec<u8>>), Memory>
    requires { IfSome bytes (λ bytes. length (flat_map T.spell front.now) ≤ length bytes.items) }
    ensures { (behind : List T) → IfSome bytes (λ bytes. bytes.items ≡ flat_map T.spell (front.now ++ behind))
        → IfOk result (λ parts. IfSome parts.0 (λ bytes. bytes.items ≡ flat_map T.spell front.now)
        × IfSome parts.1 (λ bytes. bytes.items ≡ flat_map T.spell behind)) }
{
    match bytes {
        None => Ok((None, None)),
        Some(bytes) => {
            let mut bytes = bytes;
            let at = extent(front)?;
            let behind = bytes.split_off(at)?;
            bytes.shrink_to_fit();
            Ok((Some(bytes), Some(behind)))
        }
    }
}

// Appends the spellings of the items in order.
fn put_all<T: Spelled>(items: &[T], out: &mut Vec<u8>) -> Result<(), Memory>
    ensures put { OnOk result (out.new.items ≡ out.old.items ++ flat_map T.spell items.now) }
    ensures kept { OnErr result (Keeps out.old.items out.new.items) }
{
    for item in items {
        item.put(out)?;
    }
    Ok(())
}

// How many bytes the spellings of the items are.
fn extent<T: Spelled>(items: &[T]) -> Result<usize, Memory>
    ensures { IfOk result (λ count. count ≡ length (flat_map T.spell items.now)) }
{
    let mut count: usize = 0;
    for item in items {
        count = count.checked_add(item.spelled_len()).ok_or(Memory)?;
    }
    Ok(count)
}
