ghost use Rattle.std.specs.Prelude.{◌≡◌, ◌+◌, ◌++◌, ◌≤◌, ℕ, [], length, All, IfOk, IfSome, IsTrue, OnOk};
ghost use Rattle.ficus_ids.specs.Members.{IsMember};
ghost use Rattle.ficus_table.specs.SideBySide.{as_list};
ghost use Rattle.ficus_entry.specs.Entry.{IsRising};
ghost use Rattle.ficus_entry.specs.declared.entry.State.{State};
ghost use Rattle.ficus_merge_entries.specs.Merge.{AreReplacements, MergesEntries};
ghost use Rattle.ficus_merge_entries.specs.Pairs.{IsAtStart};

use crate::pairs::Pairs;
use crate::replacement::replacement;
use crate::runs::merge_runs;
use crate::table::Taker;
use ficus_entry::{Entries, InOrder, SharedEntry};
use ficus_ids::{Members, Memory};
use std::alloc::Global;

/// What replica `me` holds after it has taken a peer's entries: the merge table, entry by entry. `me` is a
/// member.
pub fn merge_entries(
    alloc: Global,
    mine: &Entries,
    theirs: &Entries,
    me: u8,
    members: Members,
) -> Result<Entries, Memory>
    requires { IsMember members me }
    ensures merged { IfOk result (MergesEntries me members mine.now theirs.now) }
    ensures rising { IfOk result IsRising }
{
    // Tells that the identifiers of both rise.
    let _counts = (mine.len(), theirs.len());
    merge_runs(alloc, &mut mine.run(), &mut theirs.run(), me, members)
}

/// The peer's entries, by their rows, where these are known, none of them is removed, and the taker has none: then they
/// are the merge as they are, whoever takes them. It looks at the peer's entries up to the first that is removed, and
/// only where the taker has none.
pub fn all_new<'a>(mine: &Entries, theirs: &InOrder<'a>) -> Option<&'a [SharedEntry]>
    ensures merged { IfSome result (λ rows.
        (me members : ℕ) → MergesEntries me members mine.now theirs.now rows.now) }
    ensures rising { IfSome result (λ rows. IsRising rows.now) }
{
    // Tells that the identifiers rise.
    let _count = theirs.len();
    let rows = theirs.rows().all_rows()?;
    if mine.is_empty() && are_live(rows) {
        Some(rows)
    } else {
        None
    }
}

// Whether none of the entries is removed.
fn are_live(rows: &[SharedEntry]) -> bool
    ensures { IsTrue result → All (λ entry. entry.state ≡ State.Live) rows.now }
{
    for row in rows {
        if !row.entry().is_live() {
            return false;
        }
    }
    true
}

/// What becomes of the entries of the taker `me`, where it isn't what stands there already: with these in place of what
/// stands there ([`Entries::replaced`]), the taker holds the merge. So what stays isn't copied, and an entry that the
/// peer alone has is shared with it, where its row is known. `me` is a member. The walk gives each pair once, and is
/// asked at most once more than both have entries, also where `Memory` ends it. There is `room` for so many
/// replacements from the start.
pub fn replacements<'a, W: Pairs<'a>>(
    alloc: Global,
    walk: &mut W,
    me: u8,
    members: Members,
    room: usize,
) -> Result<Vec<SharedEntry>, Memory>
    requires member { IsMember members me }
    requires start { IsAtStart (W.sides walk.old) }
    ensures made { IfOk result (λ replacements. AreReplacements me members
        (W.sides walk.old).mine (W.sides walk.old).theirs replacements.items) }
    ensures rising { IfOk result (λ replacements. IsRising replacements.items) }
    ensures calls { W.calls walk.new
        ≤ W.calls walk.old + length (W.sides walk.old).mine + length (W.sides walk.old).theirs + 1 }
{
    let mut replacements = Vec::with_capacity(alloc, room)?;
    put_replacements(&mut replacements, Taker::new(me, members), walk)?;
    Ok(replacements)
}

// Puts these into an empty list.
fn put_replacements<'a, W: Pairs<'a>>(
    replacements: &mut Vec<SharedEntry>,
    taker: Taker,
    walk: &mut W,
) -> Result<(), Memory>
    requires empty { replacements.old.items ≡ [] }
    requires start { IsAtStart (W.sides walk.old) }
    ensures made { OnOk result (AreReplacements taker.number taker.members
        (W.sides walk.old).mine (W.sides walk.old).theirs replacements.new.items) }
    ensures rising { OnOk result (IsRising replacements.new.items) }
    ensures calls { W.calls walk.new
        ≤ W.calls walk.old + length (W.sides walk.old).mine + length (W.sides walk.old).theirs + 1 }
{
    let alloc = *replacements.allocator();
    while let Some(next) = walk.next() {
        note(replacements, replacement(alloc, taker, next)?)?;
    }
    Ok(())
}

/// Puts an entry, if there is one, behind the others.
pub(crate) fn note(
    replacements: &mut Vec<SharedEntry>,
    entry: Option<SharedEntry>,
) -> Result<(), Memory>
    ensures { OnOk result (replacements.new.items ≡ replacements.old.items ++ as_list entry) }
{
    if let Some(entry) = entry {
        replacements.push(entry)?;
    }
    Ok(())
}
