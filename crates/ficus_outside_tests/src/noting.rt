// A system for tests that tells what it is asked.
ghost use Rattle.std.specs.Prelude.{◌≡◌, ◌≤◌, List, Some, IfOk, map, option_map, unwrap_or};
ghost use Rattle.ficus_outside.specs.Told.{Told, Refused, Took};

use crate::system::Turn;
use ficus_outside::System;
use std::alloc::Global;
use std::io;
use std::marker::Model;
use std::process::Abort;

/// A call: what was to be printed, and how many bytes of that were, or none where it was refused.
#[derive(Drop)]
pub struct Note {
    pub bytes: Vec<u8>,
    pub taken: Option<usize>,
}

/// A system that keeps a note of each call, and does what it is told. Where no turn is left it prints what it can.
#[derive(Drop)]
pub struct Noting<R: Abort + Drop> {
    rt: R,
    alloc: Global,
    notes: Vec<Note>,
    turns: &'static [Turn],
}

impl<R: Abort + Drop> Model for Noting<R> {
    ghost Value = { List Told };

    ghost view = { λ s. map (λ note. unwrap_or (option_map (λ count. Took note.bytes.items count) note.taken)
        (Refused note.bytes.items)) s.notes.items };
}

impl<R: Abort + Drop> Noting<R> {
    /// One that was asked nothing.
    pub fn new(rt: R, alloc: Global, turns: &'static [Turn]) -> Noting<R> {
        Noting {
            rt,
            alloc,
            notes: Vec::new(alloc),
            turns,
        }
    }

    /// The notes, in order.
    pub fn into_notes(self) -> Vec<Note> {
        let Noting { notes, .. } = self;
        notes
    }

    // What the next call does with so many bytes.
    fn turn(&mut self, bytes: usize) -> io::Result<usize>
        ensures within { IfOk result (λ count. count ≤ bytes) }
        ensures kept { self.new ≡ self.old }
    {
        let [turn, later @ ..] = self.turns else {
            return Ok(bytes);
        };
        self.turns = later;
        Ok(turn.count(bytes)?.min(bytes))
    }
}

impl<R: Abort + Drop> System for Noting<R> {
    ghost told = { λ calls. Some calls };

    fn print(&mut self, bytes: &[u8]) -> io::Result<usize> {
        let answer = self.turn(bytes.len());
        let taken = match &answer {
            Ok(count) => Some(*count),
            Err(_) => None,
        };
        let bytes = Vec::from_slice(self.alloc, bytes).expect(&self.rt, "memory for a note");
        let note = Note { bytes, taken };
        self.notes.push(note).expect(&self.rt, "memory for a note");
        answer
    }
}
