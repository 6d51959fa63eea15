ghost use Rattle.std.specs.Prelude.{◌≡◌, ◌↔◌, ◌+◌, ◌<◌, ◌^◌, ◌++◌, [], length, map, IsTrue, IfOk, OnErr, OnOk};
ghost use Rattle.std.specs.Option.{option_map, unwrap_or};
ghost use Rattle.ficus_wire.specs.Parts.{HasAllBut, HasPart, HeldParts, IsWholeOf, joined, no_parts, part_at, with_part};
ghost use Rattle.ficus_formats.specs.Format.{Keeps};
ghost use Rattle.ficus_wire.specs.Parts.{RisesFrom};

use ficus_ids::Memory;
use std::alloc::Global;
use std::collections::BTreeMap;
use std::marker::Model;

/// The parts of an answer that are held: pieces of one state. Each takes the room of its own bytes, whatever else of
/// the answer is said to come.
#[derive(Drop)]
pub struct Parts {
    alloc: Global,
    state: u64,
    pieces: u32,
    have: BTreeMap<u32, Vec<u8>>,
    /// How many bytes they have, for the room of the whole.
    size: usize,
}

impl Model for Parts {
    ghost Value = { HeldParts };

    ghost view = { λ p. record {
      state = p.state;
      pieces = p.pieces;
      have = map (λ e. (e.0, e.1.items)) p.have.entries;
    } };

    ghost invariant = { λ p. (p.pieces < 2 ^ 32) × RisesFrom 0 p.pieces p.have.entries };
}

impl Parts {
    /// None of so many pieces of the state. Takes no memory.
    pub fn new(alloc: Global, state: u64, pieces: u32) -> Parts
        ensures { result ≡ no_parts state pieces }
    {
        Parts {
            alloc,
            state,
            pieces,
            have: BTreeMap::new(alloc),
            size: 0,
        }
    }

    /// The state that was served.
    pub fn state(&self) -> u64
        ensures { result ≡ self.now.state }
    {
        self.state
    }

    /// How many pieces it has.
    pub fn pieces(&self) -> u32
        ensures { result ≡ self.now.pieces }
    {
        self.pieces
    }

    /// How many of them are held.
    pub fn len(&self) -> u32
        ensures { result ≡ length self.now.have }
    {
        self.have.len() as u32
    }

    /// Whether the piece with the index is held.
    pub fn has(&self, index: u32) -> bool
        ensures { IsTrue result ↔ HasPart self.now index }
    {
        self.have.contains_key(&index)
    }

    /// Whether all pieces are held but this one, which isn't. There is a number for one more.
    pub fn lacks_only(&self, index: u32) -> bool
        requires lacks { HasPart self.now index → ⊥ }
        requires below { index < self.now.pieces }
        ensures last { IsTrue result ↔ HasAllBut self.now index }
        ensures few { length self.now.have + 1 < 2 ^ 32 }
    {
        self.len() == self.pieces - 1
    }

    /// Holds one more.
    pub fn add(&mut self, index: u32, bytes: Vec<u8>) -> Result<(), Memory>
        requires lacks { HasPart self.old index → ⊥ }
        requires below { index < self.old.pieces }
        ensures added { OnOk result (self.new ≡ with_part self.old index bytes.items) }
        ensures kept { OnErr result (self.new ≡ self.old) }
    {
        let size = bytes.len();
        self.have.insert(index, bytes)?;
        self.size = self.size.saturating_add(size);
        Ok(())
    }

    // The bytes of a piece, or none where it isn't held.
    fn part(&self, index: u32) -> &[u8]
        ensures { result.now ≡ unwrap_or (part_at self.now index) [] }
    {
        match self.have.get(&index) {
            Some(bytes) => bytes,
            None => &[],
        }
    }

    /// The bytes of all pieces, in order, or `None` exactly where one is missing.
    #[tactic(auto, using(crate::proofs::Holding::front_more))]
    pub fn whole(&self) -> Result<Option<Vec<u8>>, Memory>
        ensures { IfOk result (λ whole. IsWholeOf self.now (option_map (λ bytes. bytes.items) whole)) }
    {
        if self.len() < self.pieces {
            return Ok(None);
        }
        let mut whole = Vec::with_capacity(self.alloc, self.size)?;
        for index in 0..self.pieces {
            whole.extend_from_slice(self.part(index))?;
        }
        Ok(Some(whole))
    }

    // The bytes of a piece, where this one is lent as if it were held.
    fn part_with<'a>(&'a self, at: u32, index: u32, last: &'a [u8]) -> &'a [u8]
        ensures { result.now ≡ unwrap_or (part_at (with_part self.now index last.now) at) [] }
    {
        if at == index { last } else { self.part(at) }
    }

    /// Appends the bytes of all pieces, in order, with this one as if it were held. Mostly it is the last that was
    /// missing. Room for all is taken once.
    #[tactic(auto, using(crate::proofs::Holding::front_more))]
    pub fn put_whole_with(&self, out: &mut Vec<u8>, index: u32, last: &[u8]) -> Result<(), Memory>
        ensures put { OnOk result (out.new.items ≡ out.old.items ++ joined (with_part self.now index last.now)) }
        ensures kept { OnErr result (Keeps out.old.items out.new.items) }
    {
        out.reserve(self.size.saturating_add(last.len()))?;
        for at in 0..self.pieces {
            out.extend_from_slice(self.part_with(at, index, last))?;
        }
        Ok(())
    }
}
