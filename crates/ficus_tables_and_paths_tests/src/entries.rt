ghost use Rattle.std.specs.Prelude.{◌≡◌, ◌≤◌};

use crate::fault::Fault;
use ficus_entry::{Entries, Entry, Leading, State};
use ficus_ids::{Id, Marks, Memory, Name, NameFault, ROOT};
use std::alloc::Global;
use std::test::Fail;

const fn id(number: u32) -> Id {
    Id { replica: 1, number }
}

// An entry for the object of this number under a name of the root.
fn entry(number: u32, name: &[u8]) -> Result<Entry, NameFault> {
    let name = Name::new(name)?;
    let id = id(number);
    Ok(Entry {
        id,
        dir: ROOT,
        name,
        target: id,
        state: State::Live,
    })
}

// Enters an object of this number under a name of the root.
fn enter(entries: &mut Entries, number: u32, name: &[u8]) -> Result<(), Fault> {
    entries.put(entry(number, name)?)?;
    Ok(())
}

// Removes the entry, if it is live.
fn remove(entries: &mut Entries, number: u32) {
    let id = id(number);
    if entries.holds_live(id) {
        entries.kill(id, 1);
    }
}

// The number of the object to which a name of the root leads, or 0.
fn target(entries: &Entries, name: &[u8]) -> Result<u32, NameFault> {
    let name = Name::new(name)?;
    match entries.named(ROOT, &name, Leading::Anywhere) {
        Some(entry) => Ok(entry.target.number),
        None => Ok(0),
    }
}

// Enters and removes an object. Its name leads nowhere before, and to the object while it is there.
fn turn(entries: &mut Entries, number: u32) -> Result<(), Fault> {
    let before = target(entries, b"goes")?;
    enter(entries, number, b"goes")?;
    let between = target(entries, b"goes")?;
    remove(entries, number);
    if before != 0 || between != number {
        return Err(Fault::Row);
    }
    Ok(())
}

// Folds the changes in.
fn fold(entries: &mut Entries) -> Result<(), Memory> {
    *entries = entries.copy()?;
    Ok(())
}

// A name is entered and removed a thousand times beside one that stays, and the changes of every second turn are
// folded in by a copy.
fn wear(entries: &mut Entries) -> Result<(), Fault> {
    enter(entries, 1, b"stays")?;
    for number in 2..1002 {
        turn(entries, number)?;
        if number % 2 == 0 {
            fold(entries)?;
        }
    }
    Ok(())
}

// Where the name that stays and the name that goes lead.
fn targets(entries: &Entries) -> Result<[u32; 2], NameFault> {
    let stays = target(entries, b"stays")?;
    let goes = target(entries, b"goes")?;
    Ok([stays, goes])
}

// How many entries lie in a directory.
fn count_inside(entries: &Entries, dir: Id) -> Result<usize, Memory> {
    let inside = entries.inside(dir)?;
    Ok(inside.len())
}

// How many entries lead to the object of this number.
fn count_naming(entries: &Entries, number: u32) -> Result<usize, Memory> {
    let naming = entries.naming(id(number))?;
    Ok(naming.len())
}

// How many live entries are noted to lie in the root.
fn count_noted(entries: &Entries) -> Result<usize, Memory> {
    let live = entries.noted_live_inside(ROOT)?;
    Ok(live.len())
}

// The same, once all changes are folded in.
fn count_live(entries: &Entries) -> Result<usize, Memory> {
    let folded = entries.copy()?;
    count_noted(&folded)
}

// Whether all entries from this place on are dead, and known to be so to replica 1 alone.
fn are_dead(entries: &Entries, first: usize) -> Result<bool, Memory> {
    let dead = State::Dead {
        one: Marks::empty().with(1),
        two: Marks::empty(),
    };
    let in_order = entries.in_order()?;
    for index in first..in_order.len() {
        if in_order.at(index).state != dead {
            return Ok(false);
        }
    }
    Ok(true)
}

// Whether the name that stays leads to its object, the other one nowhere, and all that was entered still lies in the
// root, one of it live.
fn is_worn(entries: &Entries) -> Result<bool, Fault> {
    let leads = targets(entries)? == [1, 0];
    let inside = count_inside(entries, ROOT)?;
    let live = count_live(entries)?;
    let named = entries.live_naming(id(1)) && !entries.live_naming(id(2));
    Ok(leads && inside == 1001 && live == 1 && named && entries.live_inside(ROOT))
}

// Whether nothing is live in the root, and all that was entered is dead, and still leads to its object.
fn is_bare(entries: &Entries) -> Result<bool, Memory> {
    let dead = are_dead(entries, 0)?;
    let naming = count_naming(entries, 1)?;
    Ok(dead && naming == 1 && !entries.live_naming(id(1)) && !entries.live_inside(ROOT))
}

// Whether the entries are worn, and bare once the one that stays is removed.
fn are_worn(entries: &mut Entries) -> Result<bool, Fault> {
    wear(entries)?;
    let worn = is_worn(entries)?;
    remove(entries, 1);
    let bare = is_bare(entries)?;
    Ok(worn && bare)
}

fn are_worn_anew(alloc: Global) -> Result<bool, Fault> {
    let mut entries = Entries::new(alloc);
    are_worn(&mut entries)
}

#[test]
fn removed_entries_leave_their_names_and_stay_known(rt: HostRuntime) -> Result<(), Fail> {
    let worn = are_worn_anew(rt.alloc())?;
    assert!(rt; worn);
    Ok(())
}

// One entry, behind none.
fn first(alloc: Global) -> Result<Entries, Fault> {
    let mut entries = Entries::new(alloc);
    entries.append(entry(1, b"first")?)?;
    Ok(entries)
}

#[test]
fn an_entry_is_appended(rt: HostRuntime) -> Result<(), Fail> {
    let entries = first(rt.alloc())?;
    assert_eq!(rt; entries.len(), 1);
    Ok(())
}
