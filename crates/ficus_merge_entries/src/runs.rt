ghost use Rattle.std.specs.Prelude.{◌≡◌, ◌+◌, ◌++◌, ◌||◌, ◌≤◌, ℕ, List, [], Option, drop, true, None, length, IfOk, OnOk, OnErr};
ghost use Rattle.ficus_ids.specs.Members.{IsMember};
ghost use Rattle.std.specs.Int.{from_bool};
ghost use Rattle.std.specs.Option.{is_some, option_copied};
ghost use Rattle.ficus_table.specs.Made.{IsMadeBy};
ghost use Rattle.ficus_table.specs.SideBySide.{AreLowest, as_list};
ghost use Rattle.ficus_entry.specs.Entry.{IsRising};
ghost use Rattle.ficus_entry.specs.declared.entry.Entry.{Entry as EntryValue};
ghost use Rattle.ficus_merge_entries.specs.Merge.{MergesEntries};
ghost use Rattle.ficus_entry.specs.Run.{Takes};
ghost use Rattle.ficus_merge_entries.specs.Runs.{id_of, kept_if};
ghost use Rattle.ficus_merge_entries.specs.Table.{MergesEntry};

use crate::merge::note;
use crate::replacement::shared;
use crate::table::Taker;
use ficus_entry::{Entries, Entry, Run, SharedEntry};
use ficus_ids::{Members, Memory};
use std::alloc::Global;
use std::cmp::Ordering;

/// What replica `me` holds after it has taken a peer's entries, both read one by one: the merge table, entry by entry.
/// `me` is a member, and the identifiers of both rise strictly. Each is asked at most once more than it has entries.
/// After `Memory` they may be read in part.
pub fn merge_runs<A: Run, B: Run>(
    alloc: Global,
    mine: &mut A,
    theirs: &mut B,
    me: u8,
    members: Members,
) -> Result<Entries, Memory>
    requires member { IsMember members me }
    requires mine { IsRising (A.left mine.old) }
    requires theirs { IsRising (B.left theirs.old) }
    ensures merged { IfOk result (MergesEntries me members (A.left mine.old) (B.left theirs.old)) }
    ensures rising { IfOk result IsRising }
    ensures mine_calls { A.calls mine.new ≤ A.calls mine.old + length (A.left mine.old) + 1 }
    ensures their_calls { B.calls theirs.new ≤ B.calls theirs.old + length (B.left theirs.old) + 1 }
{
    let mut merged = Vec::new(alloc);
    collect_runs(&mut merged, Taker::new(me, members), mine, theirs)?;
    Entries::of_rows(alloc, &merged)
}

// Puts what both make together into an empty list.
fn collect_runs<A: Run, B: Run>(
    merged: &mut Vec<SharedEntry>,
    taker: Taker,
    mine: &mut A,
    theirs: &mut B,
) -> Result<(), Memory>
    requires empty { merged.old.items ≡ [] }
    requires mine { IsRising (A.left mine.old) }
    requires theirs { IsRising (B.left theirs.old) }
    ensures made { OnOk result (IsMadeBy (λ entry. entry.id) (MergesEntry taker.number taker.members)
        (A.left mine.old) (B.left theirs.old) merged.new.items) }
    ensures rising { OnOk result (IsRising merged.new.items) }
    ensures mine_calls { A.calls mine.new ≤ A.calls mine.old + length (A.left mine.old) + 1 }
    ensures their_calls { B.calls theirs.new ≤ B.calls theirs.old + length (B.left theirs.old) + 1 }
{
    let mut my = mine.next()?;
    let mut their = theirs.next()?;
    go_on(merged, taker, mine, theirs, &mut my, &mut their)
}

// The same with one entry of each in hand, if there is one.
fn go_on<A: Run, B: Run>(
    merged: &mut Vec<SharedEntry>,
    taker: Taker,
    mine: &mut A,
    theirs: &mut B,
    my: &mut Option<Entry>,
    their: &mut Option<Entry>,
) -> Result<(), Memory>
    requires empty { merged.old.items ≡ [] }
    requires mine_none { my.old ≡ None → A.left mine.old ≡ [] }
    requires theirs_none { their.old ≡ None → B.left theirs.old ≡ [] }
    requires mine { IsRising (as_list my.old ++ A.left mine.old) }
    requires theirs { IsRising (as_list their.old ++ B.left theirs.old) }
    ensures made { OnOk result (IsMadeBy id_of (MergesEntry taker.number taker.members)
        (as_list my.old ++ A.left mine.old) (as_list their.old ++ B.left theirs.old) merged.new.items) }
    ensures rising { OnOk result (IsRising merged.new.items) }
    ensures mine_calls { A.calls mine.new ≤ A.calls mine.old + length (as_list my.old ++ A.left mine.old) }
    ensures their_calls { B.calls theirs.new ≤ B.calls theirs.old + length (as_list their.old ++ B.left theirs.old) }
{
    'pairs: while are_left(my, their) {
        let lower = lower_of(my, their);
        put_made(merged, &taker, lower, my, their)?;
        advance(mine, my, lower.mine)?;
        advance(theirs, their, lower.theirs)?;
    }
    Ok(())
}

// Whether one of them is there.
fn are_left(my: &Option<Entry>, their: &Option<Entry>) -> bool
    ensures { result ≡ (is_some my.now || is_some their.now) }
{
    my.is_some() || their.is_some()
}

// Which of two entries have the lower identifier.
#[derive(Clone, Copy)]
struct Lower {
    mine: bool,
    theirs: bool,
}

#[tactic(auto, unfolding(ficus_ids::specs::Id::id_cmp))]
fn lower_of(my: &Option<Entry>, their: &Option<Entry>) -> Lower
    ensures lowest { AreLowest id_of my.now their.now (kept_if result.mine my.now) (kept_if result.theirs their.now) }
    ensures mine { is_some (kept_if result.mine my.now) ≡ result.mine }
    ensures theirs { is_some (kept_if result.theirs their.now) ≡ result.theirs }
{
    match (my, their) {
        (Some(mine), Some(theirs)) => match mine.id.cmp(&theirs.id) {
            Ordering::Less => Lower {
                mine: true,
                theirs: false,
            },
            Ordering::Equal => Lower {
                mine: true,
                theirs: true,
            },
            Ordering::Greater => Lower {
                mine: false,
                theirs: true,
            },
        },
        (Some(_), None) => Lower {
            mine: true,
            theirs: false,
        },
        (None, Some(_)) => Lower {
            mine: false,
            theirs: true,
        },
        (None, None) => Lower {
            mine: false,
            theirs: false,
        },
    }
}

// Puts what the table makes of the lower ones behind the others.
fn put_made(
    merged: &mut Vec<SharedEntry>,
    taker: &Taker,
    lower: Lower,
    my: &Option<Entry>,
    their: &Option<Entry>,
) -> Result<(), Memory>
    ensures { OnOk result ((made : Option EntryValue)
        × MergesEntry taker.now.number taker.now.members (kept_if lower.mine my.now) (kept_if lower.theirs their.now)
        made
        × (merged.new.items ≡ merged.old.items ++ as_list made)) }
{
    let alloc = *merged.allocator();
    let made = made_of(*taker, kept(my, lower.mine), kept(their, lower.theirs))?;
    note(merged, shared(alloc, made)?)
}

fn kept(head: &Option<Entry>, is_kept: bool) -> Option<&Entry>
    ensures { option_copied result ≡ kept_if is_kept head.now }
{
    if is_kept { head.as_ref() } else { None }
}

// What the table makes of both.
fn made_of(
    taker: Taker,
    mine: Option<&Entry>,
    theirs: Option<&Entry>,
) -> Result<Option<Entry>, Memory>
    ensures { IfOk result (MergesEntry taker.number taker.members (option_copied mine.entry)
        (option_copied theirs.entry)) }
{
    match taker.replacement(mine, theirs)? {
        Some(replacement) => Ok(Some(replacement)),
        None => match mine {
            Some(entry) => Ok(Some(entry.copy()?)),
            None => Ok(None),
        },
    }
}

// The next entry in place of the one in hand, where that was taken.
fn advance<A: Run>(run: &mut A, head: &mut Option<Entry>, is_taken: bool) -> Result<(), Memory>
    requires { is_taken ≡ true → is_some head.old ≡ true }
    ensures at { (whole : List EntryValue) (i : ℕ) → Takes (drop i whole) (A.left run.old) head.old
        → OnOk result (Takes (drop (i + from_bool is_taken) whole) (A.left run.new) head.new) }
    ensures counted { A.calls run.new ≤ A.calls run.old + from_bool is_taken }
{
    if is_taken {
        *head = run.next()?;
    }
    Ok(())
}
