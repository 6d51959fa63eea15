ghost use Rattle.std.specs.Prelude.{◌≡◌, ◌≤◌, ◌<◌, ◌+◌, ◌++◌, length, slice_set, map, IfOk, OnOk};
ghost use Rattle.std.specs.List.{insert, remove, flat_map, AllByRecursion};
ghost use Rattle.std.specs.List.Sorted.{IsPartitionedBy};
ghost use Rattle.ficus_formats.specs.Format.{Keeps};
ghost use Rattle.ficus_persistent.specs.Cut.{IsCutAt};

use crate::{Cut, Item};
use ficus_formats::{Window, WindowSpelling};
use ficus_ids::Memory;
use std::alloc::Global;

/// Copies of the items, with room for so many more.
pub(crate) fn copies<X: Item>(alloc: Global, items: &[X], more: usize) -> Result<Vec<X>, Memory>
    requires { more ≤ 1 }
    ensures { IfOk result (λ row. row.items ≡ items.now) }
{
    let count = items.len().checked_add(more).ok_or(Memory)?;
    let mut row = Vec::with_capacity(alloc, count)?;
    for item in items {
        let item = item.copied()?;
        row.push(item)?;
    }
    Ok(row)
}

/// Copies of the items with one more, in front of the one at the index, which may be their count.
pub(crate) fn with<X: Item>(
    alloc: Global,
    items: &[X],
    index: usize,
    item: X,
) -> Result<Vec<X>, Memory>
    requires { index ≤ length items.now }
    ensures { IfOk result (λ row. row.items ≡ insert items.now index item) }
{
    let mut row = copies(alloc, items, 1)?;
    row.insert(index, item)?;
    Ok(row)
}

/// Copies of the items with another one in place of that at the index.
pub(crate) fn with_other<X: Item>(
    alloc: Global,
    items: &[X],
    index: usize,
    item: X,
) -> Result<Vec<X>, Memory>
    requires { index < length items.now }
    ensures { IfOk result (λ row. row.items ≡ slice_set items.now index item) }
{
    let mut row = copies(alloc, items, 0)?;
    row[index] = item;
    Ok(row)
}

/// Copies of the items without the one at the index.
pub(crate) fn without<X: Item>(alloc: Global, items: &[X], index: usize) -> Result<Vec<X>, Memory>
    requires { index < length items.now }
    ensures { IfOk result (λ row. row.items ≡ remove items.now index) }
{
    let mut row = copies(alloc, items, 0)?;
    let _ = row.remove(index);
    Ok(row)
}

/// Leaves in a row as many as the cut says, and gives those behind it.
pub(crate) fn cut_off<X: Drop>(row: &mut Vec<X>, index: usize) -> Result<Vec<X>, Memory>
    requires { length row.old.items ≡ 33 }
    ensures parts { IfOk result (λ behind. row.new.items ++ behind.items ≡ row.old.items) }
    ensures front { OnOk result (2 ≤ length row.new.items) }
    ensures behind { IfOk result (λ behind. 2 ≤ length behind.items) }
{
    let cut = cut_at(row.len(), index);
    let behind = row.split_off(cut)?;
    row.shrink_to_fit();
    Ok(behind)
}

// Where to cut a row that has too many items, of which the one at the index is new. Where that is the last one, nearly
// all stay together, since more will come behind it.
fn cut_at(count: usize, index: usize) -> usize
    requires { 4 ≤ count }
    ensures front { 2 ≤ result }
    ensures behind { result + 2 ≤ count }
{
    if index >= count - 1 {
        count - 2
    } else {
        count / 2
    }
}

/// How many items lie before a cut, where the row has none of them behind one that doesn't.
pub(crate) fn cut_in<T, C: Cut<T>>(row: &[T], cut: &C) -> usize
    requires { IsPartitionedBy (C.is_before cut.now) row.now }
    ensures within { result ≤ length row.now }
    ensures point { IsCutAt (C.is_before cut.now) row.now result }
{
    row.partition_point(|item| cut.is_before(item))
}

/// Appends the items in order to those gathered before.
pub(crate) fn gather_all<'a, T>(row: &'a [T], gathered: &mut Vec<&'a T>) -> Result<(), Memory>
    ensures { OnOk result (map (λ item. item.now) gathered.new.items
        ≡ map (λ item. item.now) gathered.old.items ++ row.now) }
{
    for item in row {
        gathered.push(item)?;
    }
    Ok(())
}

/// Puts the spellings of the items in order behind what was spelled before.
pub(crate) fn put_all<T, S: WindowSpelling<Value = T>>(
    row: &[T],
    spelling: &S,
    window: &mut Window,
    out: &mut Vec<u8>,
) -> Result<(), Memory>
    requires { AllByRecursion (S.Spelling.format spelling.now).fits row.now }
    ensures put { OnOk result (out.new.items ++ window.new ≡ (out.old.items ++ window.old)
        ++ flat_map (S.Spelling.format spelling.now).spell row.now) }
    ensures kept { Keeps out.old.items out.new.items }
{
    for item in row {
        spelling.put_in(window, out, item)?;
    }
    Ok(())
}
