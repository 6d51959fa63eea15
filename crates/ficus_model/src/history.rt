ghost use Rattle.std.specs.Prelude.{◌≡◌, ◌↔◌, ℕ, ◌+◌, ◌-◌, ◌^◌, ◌<◌, ◌==◌, ◌≤◌, [], ◌∷◌, ◌++◌, length, slice_get, vec_len, vec_capacity, All, IsTrue, OnOk, OnErr};
ghost use Rattle.std.specs.Option.{option_copied};
ghost use Rattle.ficus_model.specs.declared.event.Event.{Event as EventValue};
ghost use Rattle.ficus_model.specs.Events.{IsAt};
ghost use Rattle.ficus_model.specs.Lawful.{AnswersOpenAsk, IsOpenAsk, ClosesAsk};

use crate::Event;
use ficus_ids::Memory;
use std::alloc::Global;
use std::marker::Model;

/// The stored history: a list of events that only grows, and the spare room that an earlier call reserved.
#[derive(Drop)]
pub struct History {
    events: Vec<Event>,
}

impl Model for History {
    ghost use Rattle.std.specs.Prelude.{◌-◌, ◌^◌, ◌<◌, vec_len, vec_capacity};
    ghost use Rattle.ficus_model.specs.Stored.{Stored};

    ghost Value = { Stored };

    ghost view = { λ h. record { events = h.events.items; room = vec_capacity h.events - vec_len h.events } };

    ghost invariant = { λ h. vec_len h.events < 2 ^ 32 };
}

impl History {
    /// A history without events. Takes no memory.
    pub fn new(alloc: Global) -> History
        ensures { result.events ≡ [] }
    {
        History {
            events: Vec::new(alloc),
        }
    }

    /// Afterwards there is room for so many more events.
    pub fn reserve(&mut self, more: u32) -> Result<(), Memory>
        ensures room { OnOk result (more ≤ self.new.room) }
        ensures events { self.new.events ≡ self.old.events }
    {
        self.events.reserve(more as usize)?;
        Ok(())
    }

    /// Adds an event at the end. Takes no memory.
    pub fn push(&mut self, event: Event)
        requires room { 1 ≤ self.old.room }
        requires within { length self.old.events < 2 ^ 32 - 1 }
        ensures events { self.new.events ≡ self.old.events ++ event ∷ [] }
        ensures room { self.old.room ≤ self.new.room + 1 }
    {
        self.events.push_reserved(event);
    }

    /// How many events there are.
    pub fn len(&self) -> u32
        ensures value { result ≡ length self.now.events }
        ensures within { result < 2 ^ 32 }
    {
        self.events.len() as u32
    }

    /// Whether there are no events.
    pub fn is_empty(&self) -> bool
        ensures { result ≡ (length self.now.events == 0) }
    {
        self.events.is_empty()
    }

    /// The event at a position, or `None` exactly where the position isn't below the length.
    pub fn get(&self, position: u32) -> Option<&Event>
        ensures { option_copied result ≡ slice_get self.now.events position }
    {
        self.events.get(position as usize)
    }

    /// Whether what was served at the position `serve` answers the open ask of replica `by`. It does exactly where
    /// there stands a `Serve` of an `Ask` that `by` sent to the replica that served, and `by` has asked nothing, taken
    /// no answer and not restarted since.
    pub fn fresh(&self, by: u8, serve: u32) -> bool
        ensures { IsTrue result ↔ AnswersOpenAsk self.now.events serve by }
    {
        match self.get(serve) {
            Some(
                Event::Serve {
                    by: server,
                    ask,
                    ..
                },
            ) => self.is_open(*ask, by, *server),
            _ => false,
        }
    }

    // Whether the ask that `by` sent to `to` stands at the position, and is open.
    fn is_open(&self, ask: u32, by: u8, to: u8) -> bool
        ensures { IsTrue result ↔ IsOpenAsk self.now.events ask by to }
    {
        match self.get(ask) {
            Some(
                Event::Ask {
                    by: asker,
                    to: asked,
                },
            ) => { *asker == by && *asked == to && stays_open(&self.events, ask, by) }
            _ => false,
        }
    }
}

// Whether no event behind the position closes the ask of the replica.
fn stays_open(events: &[Event], ask: u32, by: u8) -> bool
    requires { ask < length events.now }
    ensures { IsTrue result
        ↔ ((later : ℕ) (event : EventValue) → ask < later → IsAt events.now later event → ClosesAsk by event → ⊥) }
{
    let (_, behind) = events.split_at(ask as usize + 1);
    close_none(behind, by)
}

// Whether after none of the events an answer to an earlier ask of the replica is no longer taken.
fn close_none(events: &[Event], by: u8) -> bool
    ensures { IsTrue result ↔ All (λ event. ClosesAsk by event → ⊥) events.now }
{
    events.iter().all(|event| !closes_ask(event, by))
}

// Whether an answer to an earlier ask of the replica is no longer taken after the event.
fn closes_ask(event: &Event, by: u8) -> bool
    ensures { IsTrue result ↔ ClosesAsk by event.now }
{
    match event {
        Event::Ask { by: asker, .. } => *asker == by,
        Event::Accept { by: taker, .. } => *taker == by,
        Event::Restart { by: starter } => *starter == by,
        Event::Update { .. } | Event::Serve { .. } | Event::Take { .. } | Event::Collect { .. } =>
            false,
    }
}
