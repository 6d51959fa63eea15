ghost use Rattle.std.specs.Prelude.{◌≡◌, ◌==◌, ◌<◌, ◌++◌, List, ℕ, length, drop, IfSome, IfNone, IfErr, OnErr};
ghost use Rattle.ficus_formats.specs.Format.{Reads, ReadsBytes, byte, number16, number32, number64, string, id};

use crate::ReadFault;
use ficus_ids::Id;
use std::marker::Model;

/// The bytes that are left to be read. Contracts see it as these bytes. No call of it takes memory, so each fails with
/// `Unspelled` alone. What a reader is worth that has failed is said nowhere: it isn't used again.
#[derive(Drop)]
pub struct Reader<'a> {
    rest: &'a [u8],
}

impl<'a> Model for Reader<'a> {
    ghost Value = { List ℕ };

    ghost view = { λ r. r.rest.now };
}

impl<'a> Reader<'a> {
    /// Reads the bytes from the first one on.
    pub fn new(bytes: &'a [u8]) -> Reader<'a>
        ensures { result ≡ bytes.now }
    {
        Reader { rest: bytes }
    }

    /// Reads the bytes from a place on, counted from 0. Behind their end there are none.
    pub fn at(bytes: &'a [u8], at: usize) -> Reader<'a>
        ensures { result ≡ drop at bytes.now }
    {
        let (_, rest) = bytes.split_at(at.min(bytes.len()));
        Reader { rest }
    }

    /// How many bytes are left.
    pub fn len(&self) -> usize
        ensures { result ≡ length self.now }
    {
        self.rest.len()
    }

    /// Whether no bytes are left.
    pub fn is_empty(&self) -> bool
        ensures { result ≡ (length self.now == 0) }
    {
        self.rest.is_empty()
    }

    /// All bytes that are left.
    pub fn rest(self) -> &'a [u8]
        ensures { result.now ≡ self.entry }
    {
        self.rest
    }

    /// Another reader of the bytes that are left, which moves by itself. Takes no memory.
    pub fn again(&self) -> Reader<'a>
        ensures { result ≡ self.now }
    {
        Reader { rest: self.rest }
    }

    /// The next bytes, as many as said, or `None` exactly where fewer are left.
    pub fn front(&mut self, count: usize) -> Option<&'a [u8]>
        ensures some { IfSome result (λ front. (length front.now ≡ count) × (self.old ≡ front.now ++ self.new)) }
        ensures none { IfNone result (length self.old < count) }
    {
        if self.rest.len() < count {
            return None;
        }
        let (front, rest) = self.rest.split_at(count);
        self.rest = rest;
        Some(front)
    }

    /// A byte. It fails exactly where none is left.
    pub fn byte(&mut self) -> Result<u8, ReadFault>
        ensures reads { Reads byte self.old result self.new }
        ensures short { OnErr result (length self.old < 1) }
        ensures unspelled { IfErr result (λ fault. fault ≡ ReadFault.Unspelled) }
    {
        match self.front(1) {
            Some(front) => Ok(front[0]),
            None => Err(ReadFault::Unspelled),
        }
    }

    /// A number of two bytes. It fails exactly where fewer are left.
    pub fn number16(&mut self) -> Result<u16, ReadFault>
        ensures reads { Reads number16 self.old result self.new }
        ensures short { OnErr result (length self.old < 2) }
        ensures unspelled { IfErr result (λ fault. fault ≡ ReadFault.Unspelled) }
    {
        match self.front(2) {
            Some(front) => Ok(u16::from_be_bytes([front[0], front[1]])),
            None => Err(ReadFault::Unspelled),
        }
    }

    /// A number of four bytes. It fails exactly where fewer are left.
    pub fn number32(&mut self) -> Result<u32, ReadFault>
        ensures reads { Reads number32 self.old result self.new }
        ensures short { OnErr result (length self.old < 4) }
        ensures unspelled { IfErr result (λ fault. fault ≡ ReadFault.Unspelled) }
    {
        match self.front(4) {
            Some(front) => Ok(u32::from_be_bytes([front[0], front[1], front[2], front[3]])),
            None => Err(ReadFault::Unspelled),
        }
    }

    /// A number of eight bytes. It fails exactly where fewer are left.
    #[tactic(auto, using(std::proofs::lemmas::Nat::be_bytes_8))]
    pub fn number64(&mut self) -> Result<u64, ReadFault>
        ensures reads { Reads number64 self.old result self.new }
        ensures short { OnErr result (length self.old < 8) }
        ensures unspelled { IfErr result (λ fault. fault ≡ ReadFault.Unspelled) }
    {
        match self.front(8) {
            Some(front) => Ok(u64::from_be_bytes([
                front[0], front[1], front[2], front[3], front[4], front[5], front[6], front[7],
            ])),
            None => Err(ReadFault::Unspelled),
        }
    }

    /// An identifier. It fails exactly where fewer than its five bytes are left.
    pub fn id(&mut self) -> Result<Id, ReadFault>
        ensures reads { Reads id self.old result self.new }
        ensures short { OnErr result (length self.old < 5) }
        ensures unspelled { IfErr result (λ fault. fault ≡ ReadFault.Unspelled) }
    {
        match self.front(5) {
            Some(front) => Ok(Id {
                replica: front[0],
                number: u32::from_be_bytes([front[1], front[2], front[3], front[4]]),
            }),
            None => Err(ReadFault::Unspelled),
        }
    }

    /// Bytes behind their length in one byte.
    pub fn short_string(&mut self) -> Result<&'a [u8], ReadFault>
        ensures reads { ReadsBytes (string byte) self.old result self.new }
        ensures unspelled { IfErr result (λ fault. fault ≡ ReadFault.Unspelled) }
    {
        let length = self.byte()?;
        self.front(usize::from(length)).ok_or(ReadFault::Unspelled)
    }

    /// Bytes behind their length in two bytes.
    pub fn long_string(&mut self) -> Result<&'a [u8], ReadFault>
        ensures reads { ReadsBytes (string number16) self.old result self.new }
        ensures unspelled { IfErr result (λ fault. fault ≡ ReadFault.Unspelled) }
    {
        let length = self.number16()?;
        self.front(usize::from(length)).ok_or(ReadFault::Unspelled)
    }
}
