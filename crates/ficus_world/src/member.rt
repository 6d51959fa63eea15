ghost use Rattle.std.specs.Prelude.{◌≡◌, ◌≢◌, ◌↔◌, ◌-◌, ◌<◌, IsTrue, OnErr, OnOk, Some, None, length, slice_set};
ghost use Rattle.ficus_ids.specs.Members.{IsMember};
ghost use Rattle.ficus_model.specs.Events.{traits};
ghost use Rattle.ficus_runs.specs.Numbered.{IsNumbered};
ghost use Rattle.ficus_wire.specs.Parts.{HasPart, with_part};
ghost use Rattle.ficus_world.specs.Moves.{IsLike, parts_after, parts_held, still_pending};
ghost use Rattle.ficus_world.specs.Disks.{IsRisen, IsStateAfter};
ghost use Rattle.ficus_opening.specs.declared.member.Member.{Member as MemberValue};
ghost use Rattle.ficus_opening.specs.declared.member.MemberState.TheVariants.{Down as IsDown, Up as IsUp};
ghost use Rattle.ficus_world.specs.declared.member.Rising.TheVariants.{AsPending as HasHappened, Neither as IsNeither};

use ficus_durable_state::Saved;
use ficus_ids::Memory;
use ficus_model::Event;
use ficus_opening::{Member, MemberState, Pending};
use ficus_replica::Replica;
use ficus_wire::{Parts, PieceHead};
use std::alloc::Global;
use std::mem;

/// What a member that is opened again comes to.
#[derive(Drop)]
pub(crate) enum Rising {
    /// It is up, as it was.
    AsWas,
    /// It is up, and this has happened, which was pending.
    AsPending(Event),
    /// It is down: what was read is neither.
    Neither,
}

/// Whether the member takes commands.
pub(crate) fn is_up(member: &Member) -> bool
    ensures { IsTrue result ↔ (member.now.state ≡ IsUp) }
{
    matches!(member.state, MemberState::Up)
}

/// Has the member of this number hold the replica after this event of its own, in the state in which it was.
pub(crate) fn hold(members: &mut Vec<Member>, number: u8, replica: Replica, event: &Event)
    requires { IsMember (length members.old.items) number }
    ensures { (was : MemberValue) → IsNumbered members.old.items number was
        → members.new.items ≡ slice_set members.old.items (number - 1)
        (record was { replica = replica; parts = parts_after event.now was.parts }) }
{
    let member = &mut members[number as usize - 1];
    member.replica = replica;
    leave(&mut member.parts, event);
}

// Gives up what is held of an answer, where the event ends the ask.
fn leave(parts: &mut Option<Parts>, event: &Event)
    ensures { parts.new ≡ parts_after event.now parts.old }
{
    if ends_ask(event) {
        *parts = None;
    }
}

// Whether no answer to an earlier ask of its replica is taken after the event.
fn ends_ask(event: &Event) -> bool
    ensures { result ≡ (traits event.now).closes }
{
    match event {
        Event::Ask { .. } | Event::Accept { .. } | Event::Restart { .. } => true,
        Event::Update { .. } | Event::Serve { .. } | Event::Take { .. } | Event::Collect { .. } =>
            false,
    }
}

/// Has the member of this number hold this piece of an answer too.
pub(crate) fn add_piece(
    alloc: Global,
    members: &mut Vec<Member>,
    number: u8,
    head: PieceHead,
    bytes: &[u8],
) -> Result<(), Memory>
    requires member { IsMember (length members.old.items) number }
    requires missing { (was : MemberValue) → IsNumbered members.old.items number was
        → HasPart (parts_held was.parts head) head.index → ⊥ }
    requires index { (was : MemberValue) → IsNumbered members.old.items number was
        → head.index < (parts_held was.parts head).pieces }
    ensures added { OnOk result ((was : MemberValue) → IsNumbered members.old.items number was
        → members.new.items ≡ slice_set members.old.items (number - 1)
        (record was { parts = Some (with_part (parts_held was.parts head) head.index bytes.now) })) }
    ensures kept { OnErr result (members.new.items ≡ members.old.items) }
{
    let bytes = bytes.to_vec(alloc)?;
    add_part(alloc, &mut members[number as usize - 1].parts, head, bytes)
}

// Adds a piece to those that are held.
fn add_part(
    alloc: Global,
    parts: &mut Option<Parts>,
    head: PieceHead,
    bytes: Vec<u8>,
) -> Result<(), Memory>
    requires missing { HasPart (parts_held parts.old head) head.index → ⊥ }
    requires index { head.index < (parts_held parts.old head).pieces }
    ensures added { OnOk result (parts.new ≡ Some (with_part (parts_held parts.old head) head.index bytes.items)) }
    ensures kept { OnErr result (parts.new ≡ parts.old) }
{
    match parts {
        Some(held) => held.add(head.index, bytes),
        None => {
            let mut first = Parts::new(alloc, head.state, head.pieces);
            first.add(head.index, bytes)?;
            *parts = Some(first);
            Ok(())
        }
    }
}

/// Puts the member of this number down, with what is pending.
pub(crate) fn put_down(members: &mut Vec<Member>, number: u8, pending: Pending)
    requires { IsMember (length members.old.items) number }
    ensures { (was : MemberValue) → IsNumbered members.old.items number was
        → members.new.items
        ≡ slice_set members.old.items (number - 1) (record was { state = IsDown (Some pending) }) }
{
    members[number as usize - 1].state = MemberState::Down(Some(pending));
}

/// Puts the member of this number down, with what was pending before.
pub(crate) fn stay_down(members: &mut Vec<Member>, number: u8)
    requires { IsMember (length members.old.items) number }
    ensures { (was : MemberValue) → IsNumbered members.old.items number was
        → members.new.items
        ≡ slice_set members.old.items (number - 1) (record was { state = IsDown (still_pending was.state) }) }
{
    let state = &mut members[number as usize - 1].state;
    if let MemberState::Up = state {
        *state = MemberState::Down(None);
    }
}

/// Brings the member of this number up with what was read of its disks, where that is of the generation that it had, or
/// of the one with what was pending. It waits for no answer then, and holds nothing of one. Else it is down.
pub(crate) fn rise(members: &mut Vec<Member>, number: u8, read: Saved) -> Rising
    requires { IsMember (length members.old.items) number }
    ensures { (was : MemberValue) → IsNumbered members.old.items number was
        → (now : MemberValue) × (members.new.items ≡ slice_set members.old.items (number - 1) now)
        × IsRisen was read result now }
{
    let member = &mut members[number as usize - 1];
    let rising = come_up(&mut member.state, &member.replica.saved, &read);
    if has_risen(&rising) {
        bring_back(&mut member.replica, read);
        member.parts = None;
    } else {
        drop(read);
    }
    rising
}

// Whether it is up.
fn has_risen(rising: &Rising) -> bool
    ensures { IsTrue result ↔ (rising.now ≢ IsNeither) }
{
    !matches!(rising, Rising::Neither)
}

// What the state of a member comes to that saves this, with what was read of its disks.
fn come_up(state: &mut MemberState, known: &Saved, read: &Saved) -> Rising
    ensures { IsStateAfter state.old known.now read.now result state.new }
{
    if is_like(known, read) {
        set_state(state, MemberState::Up);
        return Rising::AsWas;
    }
    match mem::replace(state, MemberState::Down(None)) {
        MemberState::Down(Some(pending)) => come_with(state, pending, read),
        _ => Rising::Neither,
    }
}

// Whether what is pending has happened; else it stays so.
fn come_with(state: &mut MemberState, pending: Pending, read: &Saved) -> Rising
    ensures happened { IsLike pending.replica.saved read.now
        → (result ≡ HasHappened pending.event) × (state.new ≡ IsUp) }
    ensures stays { (IsLike pending.replica.saved read.now → ⊥)
        → (result ≡ IsNeither) × (state.new ≡ IsDown (Some pending)) }
{
    if is_like(&pending.replica.saved, read) {
        set_state(state, MemberState::Up);
        Rising::AsPending(event_of(pending))
    } else {
        set_state(state, MemberState::Down(Some(pending)));
        Rising::Neither
    }
}

fn event_of(pending: Pending) -> Event
    ensures { result ≡ pending.event }
{
    pending.event
}

fn set_state(state: &mut MemberState, now: MemberState)
    ensures { state.new ≡ now }
{
    *state = now;
}

// It holds what was read, and waits for no answer.
fn bring_back(replica: &mut Replica, read: Saved)
    ensures { replica.new ≡ record { saved = read; ask = None } }
{
    *replica = restarted(read);
}

// A replica that waits for no answer.
fn restarted(read: Saved) -> Replica
    ensures { result ≡ record { saved = read; ask = None } }
{
    Replica {
        saved: read,
        ask: None,
    }
}

// Whether what was read is of the same member, volume and generation.
fn is_like(known: &Saved, read: &Saved) -> bool
    ensures { IsTrue result ↔ IsLike known.now read.now }
{
    read.me == known.me
        && read.members == known.members
        && read.ids == known.ids
        && read.bytes == known.bytes
        && read.generation == known.generation
}
