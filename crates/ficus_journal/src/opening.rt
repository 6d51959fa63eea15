ghost use Rattle.std.specs.Prelude.{◌≡◌, ◌≤◌, Some, length, IfOk, if◌then◌else◌};
ghost use Rattle.ficus_keeper.specs.Kept.{kept_of};
ghost use Rattle.ficus_slot.specs.Slot.{slot_in};
ghost use Rattle.ficus_two_slots.specs.Slots.{StandsOn};
ghost use Rattle.ficus_log.specs.Log.{is_open, tail_log};
ghost use Rattle.ficus_journal.specs.Journal.{Fits};
ghost use Rattle.ficus_journal.specs.Logs.{kept_on};

use crate::Journal;
use ficus_ids::{Listed, Memory};
use ficus_keeper::Opened;
use ficus_log::{Records, read_records};
use ficus_slot::Slot;
use ficus_two_slots::Choice;
use std::alloc::Global;

// Whether there is a gate, and it is open.
fn begins_open(bytes: &[u8]) -> bool
    ensures { result ≡ is_open bytes.now }
{
    matches!(bytes, [1, ..])
}

// The records behind a slot.
fn records_behind<'a>(alloc: Global, slot: Slot<'_>, force: &'a [u8]) -> Result<Records<'a>, Memory>
    requires { slot_in force.now
        ≡ Some (record { generation = slot.generation; body = slot.body.now }) }
    ensures log { IfOk result (λ found.
        tail_log (record { generation = slot.entry.generation; body = slot.entry.body.now }) force.now
        ≡ record { bodies = found.bodies.items; rest = found.rest.now }) }
    ensures within { IfOk result (λ found. length found.rest.now ≤ length force.now) }
{
    read_records(alloc, &force[17 + slot.body.len()..], slot.generation)
}

/// The keeper of the slot in force, and what it keeps.
pub(crate) fn opened(
    alloc: Global,
    choice: Choice<'_>,
    a: &[u8],
    b: &[u8],
) -> Result<(Journal, Opened), Memory>
    requires { slot_in (if choice.on_a then a.now else b.now)
        ≡ Some (record { generation = choice.slot.generation; body = choice.slot.body.now }) }
    ensures opened { IfOk result (λ found. kept_on (if choice.entry.on_a then a.now else b.now)
        ≡ Some (kept_of found.1)) }
    ensures keeper { IfOk result (λ found.
        StandsOn choice.entry.on_a choice.entry.slot.generation choice.entry.shut a.now b.now
        → Fits found.0 a.now b.now) }
{
    let slot = choice.slot;
    let force = if choice.on_a { a } else { b };
    let found = records_behind(alloc, slot, force)?;
    let image = slot.body.to_vec(alloc)?;
    let keeper = Journal {
        generation: slot.generation,
        on_a: choice.on_a,
        shut: choice.shut,
        end: (force.len() - found.rest.len()) as u64,
        count: found.bodies.len() as u64,
        stuck: begins_open(found.rest),
        buffer: Vec::new(alloc),
    };
    let kept = Opened {
        generation: slot.generation,
        image: Listed::of(image),
        records: Listed::of(found.bodies),
    };
    Ok((keeper, kept))
}
