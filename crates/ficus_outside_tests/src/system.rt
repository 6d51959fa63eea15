// A system for tests, whose streams do what they are told.
use std::alloc::Allocator;
use std::cell::{Cell, RefCell};
use std::fmt::Display;
use std::io;
use std::io::{BufRead, ErrorKind, Input, Lines, Print, Read};

/// What a call of the system does.
#[derive(Clone, Copy)]
pub enum Turn {
    /// It moves so many bytes at most.
    Moves(usize),
    /// It fails.
    Fails,
    /// A signal interrupts it.
    Stops,
    /// What it moves to is closed.
    Breaks,
    /// It would have to wait.
    Blocks,
}

impl Turn {
    /// How many bytes of so many are moved.
    pub fn count(self, bytes: usize) -> io::Result<usize> {
        match self {
            Turn::Moves(most) => Ok(bytes.min(most)),
            Turn::Fails => Err(ErrorKind::Other.into()),
            Turn::Stops => Err(ErrorKind::Interrupted.into()),
            Turn::Breaks => Err(ErrorKind::BrokenPipe.into()),
            Turn::Blocks => Err(ErrorKind::WouldBlock.into()),
        }
    }
}

/// A runtime whose readers give this text, each from its start.
#[derive(Clone, Copy)]
pub struct Typed {
    pub text: &'static [u8],
    pub turns: &'static [Turn],
}

/// A reader of the text. Where no turn is left it moves what it can.
#[derive(Clone, Copy)]
pub struct Reader {
    left: &'static [u8],
    turns: &'static [Turn],
}

impl Read for Reader {
    fn read(&mut self, into: &mut [u8]) -> io::Result<usize> {
        let room = into.len().min(self.left.len());
        let mut count = room;
        if let [turn, later @ ..] = self.turns {
            self.turns = later;
            count = turn.count(room)?.min(room);
        }
        into[..count].copy_from_slice(&self.left[..count]);
        self.left = &self.left[count..];
        Ok(count)
    }
}

impl BufRead for Reader {
    fn fill_buf(&mut self) -> io::Result<&[u8]> {
        Ok(self.left)
    }

    fn consume(&mut self, amount: usize) {
        self.left = &self.left[amount.min(self.left.len())..];
    }
}

impl Input for Typed {
    type Reader = Reader;

    fn read_line<A: Allocator + Clone>(&self, buf: &mut String<A>) -> io::Result<usize> {
        self.reader().read_line(buf)
    }

    fn lines<A: Allocator>(&self, alloc: A) -> Lines<Reader, A> {
        self.reader().lines(alloc)
    }

    fn reader(&self) -> Reader {
        Reader {
            left: self.text,
            turns: self.turns,
        }
    }
}

/// A runtime that keeps its output.
#[derive(Drop)]
pub struct Screen {
    pub shown: RefCell<Vec<u8>>,
    pub turns: Cell<&'static [Turn]>,
}

impl Print for Screen {
    fn print<D: Display + Drop>(&self, _value: D) -> io::Result<()> {
        Err(ErrorKind::Unsupported.into())
    }

    fn println<D: Display + Drop>(&self, _value: D) -> io::Result<()> {
        Err(ErrorKind::Unsupported.into())
    }

    fn write_all(&self, _bytes: &[u8]) -> io::Result<()> {
        Err(ErrorKind::Unsupported.into())
    }

    fn write_some(&self, bytes: &[u8]) -> io::Result<usize> {
        let mut count = bytes.len();
        if let [turn, later @ ..] = self.turns.get() {
            self.turns.set(later);
            count = turn.count(count)?.min(count);
        }
        self.shown
            .try_borrow_mut()?
            .extend_from_slice(&bytes[..count])?;
        Ok(count)
    }
}
