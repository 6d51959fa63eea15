ghost use Rattle.std.specs.Prelude.{◌≡◌, ◌≤◌, Ok};
ghost use Rattle.std.specs.Int.{w32, to_be_bytes};

use ficus_formats::put_u32;
use ficus_ids::Memory;
use ficus_persistent::{Item, PersistentList, Spelled};
use std::alloc::Global;
use std::test::Fail;

#[derive(Clone, Copy)]
struct Number {
    value: u32,
}

impl Item for Number {
    fn copied(&self) -> Result<Number, Memory>
        ensures { result ≡ Ok self.now }
    {
        Ok(*self)
    }
}

impl Spelled for Number {
    ghost spell = { λ number. to_be_bytes w32 number.value };

    fn put(&self, out: &mut Vec<u8>) -> Result<(), Memory> {
        put_u32(out, self.value)
    }

    fn spelled_len(&self) -> usize {
        4
    }
}

// Where the next of some changes goes.
#[derive(Clone, Copy)]
enum Order {
    Rising,
    Falling,
    Middle,
    // By a congruential sequence (Numerical Recipes).
    Random,
}

impl Order {
    // Where the next item goes in a list of this length.
    fn place(self, length: usize, state: u32) -> usize
        ensures { result ≤ length }
    {
        match self {
            Order::Rising => length,
            Order::Middle => length / 2,
            Order::Random if length > 0 => (state >> 8) as usize % length,
            Order::Falling | Order::Random => 0,
        }
    }
}

// A list of so many items, built at once.
fn built(alloc: Global, count: u32) -> Result<PersistentList<Number>, Memory> {
    let mut items = Vec::with_capacity(alloc, count as usize)?;
    for value in 0..count {
        items.push(Number { value })?;
    }
    PersistentList::of(alloc, &items)
}

// A list after so many insertions.
fn extended(
    alloc: Global,
    list: PersistentList<Number>,
    order: Order,
    count: u32,
) -> Result<PersistentList<Number>, Memory> {
    let mut list = list;
    let mut state: u32 = 1;
    for value in 0..count {
        state = state.wrapping_mul(1664525).wrapping_add(1013904223);
        let index = order.place(list.len(), state);
        list = list.insert(alloc, index, Number { value })?;
    }
    Ok(list)
}

// A list after so many removals of its first item.
fn shortened(
    alloc: Global,
    list: PersistentList<Number>,
    count: u32,
) -> Result<PersistentList<Number>, Memory> {
    let mut list = list;
    for _ in 0..count {
        if !list.is_empty() {
            list = list.remove(alloc, 0)?;
        }
    }
    Ok(list)
}

// A vector after the same insertions.
fn extend(plain: &mut Vec<Number>, order: Order, count: u32) -> Result<(), Memory> {
    let mut state: u32 = 1;
    for value in 0..count {
        state = state.wrapping_mul(1664525).wrapping_add(1013904223);
        let index = order.place(plain.len(), state);
        plain.insert(index, Number { value })?;
    }
    Ok(())
}

// Whether a list has the items of a vector.
fn agree(list: &PersistentList<Number>, plain: &[Number]) -> bool {
    if list.len() != plain.len() {
        return false;
    }
    for (index, number) in plain.iter().enumerate() {
        if index >= list.len() || list.at(index).value != number.value {
            return false;
        }
    }
    true
}

// Removes an item of a list and of a vector at a time, until none is left or they differ.
fn emptied(
    alloc: Global,
    list: PersistentList<Number>,
    plain: &mut Vec<Number>,
    order: Order,
) -> Result<PersistentList<Number>, Memory> {
    let mut list = list;
    let mut state: u32 = 1;
    for _ in 0..plain.len() {
        state = state.wrapping_mul(1664525).wrapping_add(1013904223);
        if agree(&list, plain) && !plain.is_empty() && !list.is_empty() {
            let index = order.place(list.len().min(plain.len()) - 1, state);
            list = list.remove(alloc, index)?;
            let _ = plain.remove(index);
        }
    }
    Ok(list)
}

// Whether a list is spelled as the items of a vector are, one after the other.
fn are_spelled_alike(
    alloc: Global,
    list: &PersistentList<Number>,
    plain: &[Number],
) -> Result<bool, Memory> {
    let mut bytes = Vec::new(alloc);
    list.put_spelled(&mut bytes)?;
    let mut wanted = Vec::new(alloc);
    for number in plain {
        number.put(&mut wanted)?;
    }
    Ok(bytes == wanted)
}

// A list with another item at each seventh place, and a vector with the same.
fn replaced(
    alloc: Global,
    list: PersistentList<Number>,
    plain: &mut [Number],
) -> Result<PersistentList<Number>, Memory> {
    let mut list = list;
    for index in 0..plain.len() {
        if index % 7 == 0 {
            let other = Number { value: u32::MAX };
            list = list.put(alloc, index, other)?;
            plain[index] = other;
        }
    }
    Ok(list)
}

// The greatest height of a list after so many insertions in one of the orders.
fn greatest_height(alloc: Global, count: u32) -> Result<u8, Memory> {
    let mut greatest = 0;
    for order in [Order::Rising, Order::Falling, Order::Middle, Order::Random] {
        let list = extended(alloc, PersistentList::new(), order, count)?;
        greatest = list.height().max(greatest);
    }
    Ok(greatest)
}

// Nodes with room for 32 stay half full at the least.
#[test]
fn the_height_is_a_logarithm(rt: HostRuntime) -> Result<(), Fail> {
    for (count, most) in [(32, 1), (256, 2), (4096, 3)] {
        let height = greatest_height(rt.alloc(), count)?;
        assert!(rt; height <= most, "{height} for {count}");
    }
    Ok(())
}

// 500,000 are more than the third power of 32, and no more than the fourth.
#[test]
fn a_long_list_stays_low(rt: HostRuntime) -> Result<(), Fail> {
    let list = built(rt.alloc(), 500_000)?;
    assert_eq!(rt; list.height(), 4);
    let list = extended(rt.alloc(), list, Order::Rising, 2_000)?;
    let list = extended(rt.alloc(), list, Order::Falling, 2_000)?;
    let list = shortened(rt.alloc(), list, 8_000)?;
    assert_eq!(rt; list.len(), 496_000);
    assert_eq!(rt; list.height(), 4);
    Ok(())
}

#[test]
fn insertions_are_those_of_a_vector(rt: HostRuntime) -> Result<(), Fail> {
    for order in [Order::Rising, Order::Falling, Order::Middle, Order::Random] {
        let list = extended(rt.alloc(), PersistentList::new(), order, 3_000)?;
        let mut plain = Vec::new(rt.alloc());
        extend(&mut plain, order, 3_000)?;
        assert!(rt; agree(&list, &plain));
    }
    Ok(())
}

// Whichever leaves keep their spelling: those of a list that was built at once don't, and of one that was changed some.
// Whether a list is spelled as the items of a vector are once it is built, and after insertions in this order,
// replacements and removals.
fn is_spelled_so(alloc: Global, order: Order) -> Result<bool, Memory> {
    let mut plain = Vec::new(alloc);
    extend(&mut plain, Order::Rising, 1_000)?;
    is_built_so(alloc, order, &mut plain)
}

// The same of a list with the items of this vector.
fn is_built_so(alloc: Global, order: Order, plain: &mut Vec<Number>) -> Result<bool, Memory> {
    let list = built(alloc, 1_000)?;
    if !are_spelled_alike(alloc, &list, plain)? {
        return Ok(false);
    }
    is_extended_so(alloc, list, order, plain)
}

// From the insertions on.
fn is_extended_so(
    alloc: Global,
    list: PersistentList<Number>,
    order: Order,
    plain: &mut Vec<Number>,
) -> Result<bool, Memory> {
    let list = extended(alloc, list, order, 2_000)?;
    extend(plain, order, 2_000)?;
    if !are_spelled_alike(alloc, &list, plain)? {
        return Ok(false);
    }
    is_replaced_so(alloc, list, plain)
}

// From the replacements on.
fn is_replaced_so(
    alloc: Global,
    list: PersistentList<Number>,
    plain: &mut Vec<Number>,
) -> Result<bool, Memory> {
    let list = replaced(alloc, list, plain)?;
    if !are_spelled_alike(alloc, &list, plain)? {
        return Ok(false);
    }
    let list = shortened(alloc, list, 1_500)?;
    are_spelled_alike(alloc, &list, &plain[plain.len().min(1_500)..])
}

#[test]
fn a_list_is_spelled_as_its_items(rt: HostRuntime) -> Result<(), Fail> {
    let orders = [Order::Rising, Order::Falling, Order::Middle, Order::Random];
    for (place, order) in orders.into_iter().enumerate() {
        let is_so = is_spelled_so(rt.alloc(), order)?;
        assert!(rt; is_so, "order {place}");
    }
    Ok(())
}

#[test]
fn removals_lead_back_to_nothing(rt: HostRuntime) -> Result<(), Fail> {
    for order in [Order::Rising, Order::Falling, Order::Middle, Order::Random] {
        let list = extended(rt.alloc(), PersistentList::new(), Order::Random, 1_500)?;
        let mut plain = Vec::new(rt.alloc());
        extend(&mut plain, Order::Random, 1_500)?;
        let list = emptied(rt.alloc(), list, &mut plain, order)?;
        assert_eq!(rt; (list.len(), plain.len(), list.height()), (0, 0, 0));
    }
    Ok(())
}

// The length of a later version of a list, after insertions and removals.
fn later_length(alloc: Global, list: &PersistentList<Number>) -> Result<usize, Memory> {
    let later = extended(alloc, list.copy()?, Order::Middle, 2_000)?;
    let later = shortened(alloc, later, 4_000)?;
    Ok(later.len())
}

// Whether a list has the items of a vector after so many insertions.
fn agrees(alloc: Global, list: &PersistentList<Number>, count: u32) -> Result<bool, Memory> {
    let mut plain = Vec::new(alloc);
    extend(&mut plain, Order::Random, count)?;
    Ok(agree(list, &plain))
}

// That length, and whether the earlier version still has its items then.
fn earlier_stays(alloc: Global) -> Result<(usize, bool), Memory> {
    let list = extended(alloc, PersistentList::new(), Order::Random, 3_000)?;
    let length = later_length(alloc, &list)?;
    let is_same = agrees(alloc, &list, 3_000)?;
    Ok((length, is_same))
}

#[test]
fn an_earlier_version_stays_as_it_was(rt: HostRuntime) -> Result<(), Fail> {
    let (length, is_same) = earlier_stays(rt.alloc())?;
    assert_eq!(rt; length, 1_000);
    assert!(rt; is_same);
    Ok(())
}
