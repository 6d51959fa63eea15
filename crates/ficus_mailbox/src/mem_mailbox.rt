ghost use Rattle.std.specs.Prelude.{◌≡◌, ◌↔◌, ◌⊎◌, ◌-◌, ◌<◌, ◌≤◌, ⊤, [], ◌∷◌, ◌++◌, length, ℕ, IsErr, IsErrOf, IsTrue, IfNone, IfOk, IfSome, OnErr, OnOk, vec_len, vec_capacity};
ghost use Rattle.ficus_faults.specs.Calls.{fresh, IsNextListed};
ghost use Rattle.ficus_mailbox.specs.Calls.{Finds, IsWithin, Puts, found_as, given_as};
ghost use Rattle.ficus_mailbox.specs.FileName.{IsFileName};
ghost use Rattle.ficus_mailbox.specs.Letter.{letter_limit};
ghost use Rattle.ficus_mailbox.specs.declared.found.Found.TheVariants.{Nothing};
ghost use Rattle.ficus_mailbox.specs.MemMailbox.{CountsFind, CountsPut, IsFirstOf, IsFoundIn, IsOther, MailboxState, faults_of, given_in, posted_in};

use crate::letter::LETTER_LIMIT;
use crate::naming::file_name;
use crate::{Filed, FindFault, Found, Given, Letter, Mailbox, MessageName};
use ficus_faults::{Calls, Failed};
use ficus_ids::{Listed, Memory};
use std::alloc::Global;
use std::marker::Model;

/// A mailbox in memory. It tells what it gave and what was put, and fails at the calls that it was told, and where its
/// room is passed.
#[derive(Drop)]
pub struct MemMailbox {
    inbox: Vec<Filed>,
    given: Vec<Given>,
    posted: Vec<Letter>,
    calls: Calls,
}

impl Model for MemMailbox {
    ghost Value = { MailboxState };

    ghost view = { λ m. record {
      inbox = m.inbox.items;
      given = m.given.items;
      posted = m.posted.items;
      room = vec_capacity m.posted - vec_len m.posted;
      calls = m.calls;
    } };
}

impl MemMailbox {
    /// A mailbox in which these have come, with room for so many messages. Of its calls of `find` and `put`, counted
    /// together from 1, those fail that `fail` lists. The room is taken here, or else the answer is `Memory`.
    pub fn new(
        alloc: Global,
        inbox: Vec<Filed>,
        room: u32,
        fail: Vec<u32>,
    ) -> Result<MemMailbox, Memory>
        ensures { IfOk result (λ mailbox. mailbox ≡ record {
          inbox = inbox.items;
          given = [];
          posted = [];
          room = room;
          calls = fresh fail.items;
        }) }
    {
        Ok(MemMailbox {
            inbox,
            given: Vec::new(alloc),
            posted: Vec::with_capacity(alloc, room as usize)?,
            calls: Calls::new(fail),
        })
    }

    /// One more has come.
    pub fn bring(&mut self, filed: Filed) -> Result<(), Memory>
        ensures brought { OnOk result (self.new ≡ record self.old { inbox = self.old.inbox ++ filed ∷ [] }) }
        ensures kept { OnErr result (self.new ≡ self.old) }
    {
        self.inbox.push(filed)?;
        Ok(())
    }

    /// The messages that were put, in order.
    pub fn posted(&self) -> &[Letter]
        ensures { result.now ≡ self.now.posted }
    {
        &self.posted
    }

    // Whether a message of this size isn't taken.
    fn lacks_room(&self, size: usize) -> bool
        ensures { IsTrue result ↔ ((self.now.room ≡ 0) ⊎ (letter_limit < size)) }
    {
        self.posted.len() == self.posted.capacity() || size > LETTER_LIMIT
    }

    // Notes what is given for the name.
    fn note(&mut self, alloc: Global, name: &[u8], found: &Found) -> Result<(), Memory>
        ensures noted { OnOk result (self.new ≡ record self.old {
          given = self.old.given ++ given_as name.now found.now ∷ [];
        }) }
        ensures kept { OnErr result (self.new ≡ self.old) }
    {
        let given = Given {
            name: Listed::of(name.to_vec(alloc)?),
            found: copied(alloc, found)?,
        };
        self.given.push(given)?;
        Ok(())
    }
}

impl Mailbox for MemMailbox {
    ghost tells = { ⊤ };

    ghost given = { given_in };

    ghost posted = { posted_in };

    ghost faults = { faults_of };

    fn find(&mut self, alloc: Global, name: &[u8]) -> Result<Found, FindFault>
        ensures finds { Finds ⊤ given_in posted_in faults_of name.now self.old self.new result }

        // It gives the first of this name, and fails exactly where it was told.
        ensures found { IfOk result (IsFoundIn self.old.inbox name.now) }
        ensures fails { IsErrOf result FindFault.Failed ↔ IsNextListed self.old.calls }
        ensures inbox { self.new.inbox ≡ self.old.inbox }
        ensures counts { CountsFind self.old self.new result }
    {
        if self.calls.next() {
            self.calls.raise();
            return Err(FindFault::Failed);
        }
        let found = look_up(alloc, &self.inbox, name)?;
        self.note(alloc, name, &found)?;
        Ok(found)
    }

    fn put(&mut self, name: MessageName, message: &[u8]) -> Result<(), Failed>
        ensures puts { Puts ⊤ given_in posted_in faults_of (record { name = name; bytes = message.now }) self.old
            self.new result }

        // It fails exactly where it was told, no room is left or the message is longer than any.
        ensures fails { IsErr result ↔ (IsNextListed self.old.calls
            ⊎ ((self.old.room ≡ 0) ⊎ (letter_limit < length message.now))) }
        ensures kept { OnErr result (self.new.posted ≡ self.old.posted) }
        ensures inbox { self.new.inbox ≡ self.old.inbox }
        ensures counts { CountsPut self.old self.new result }
    {
        let listed = self.calls.next();
        if listed || self.lacks_room(message.len()) {
            return Err(self.calls.raise());
        }
        self.posted.push_reserved(Letter::new(name, message));
        Ok(())
    }
}

// What the first of these with this name holds.
fn look_up(alloc: Global, inbox: &[Filed], name: &[u8]) -> Result<Found, Memory>
    ensures found { IfOk result (IsFoundIn inbox.now name.now) }
    ensures nameless { (IsFileName name.now → ⊥) → IfOk result (λ found. found ≡ Nothing) }
    ensures within { IfOk result IsWithin }
{
    if file_name(name).is_none() {
        return Ok(Found::Nothing);
    }
    match place_of(inbox, name) {
        Some(place) => found_of(alloc, inbox[place].bytes.items()),
        None => Ok(Found::Nothing),
    }
}

// The place of the first of these with this name.
fn place_of(inbox: &[Filed], name: &[u8]) -> Option<usize>
    ensures first { IfSome result (IsFirstOf inbox.now name.now) }
    ensures none { IfNone result ((place : ℕ) → place < length inbox.now → IsOther inbox.now name.now place) }
{
    for place in 0..inbox.len() {
        if inbox[place].name.items() == name {
            return Some(place);
        }
    }
    None
}

// These bytes, as they are found.
fn found_of(alloc: Global, bytes: &[u8]) -> Result<Found, Memory>
    ensures { IfOk result (λ found. found ≡ found_as bytes.now) }
{
    if bytes.len() > LETTER_LIMIT {
        return Ok(Found::Oversized);
    }
    Ok(Found::Bytes(Listed::of(bytes.to_vec(alloc)?)))
}

// The same once more.
fn copied(alloc: Global, found: &Found) -> Result<Found, Memory>
    ensures { IfOk result (λ copy. copy ≡ found.now) }
{
    match found {
        Found::Nothing => Ok(Found::Nothing),
        Found::Oversized => Ok(Found::Oversized),
        Found::Bytes(bytes) => Ok(Found::Bytes(Listed::of(bytes.items().to_vec(alloc)?))),
    }
}
