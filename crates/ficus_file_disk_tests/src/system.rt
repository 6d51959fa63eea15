// A system for tests, whose calls are noted and fail where they are told to.
ghost use Rattle.std.specs.Prelude.{◌≡◌, ◌≤◌, length};

use std::alloc::{AllocError, Allocator, Global};
use std::cell::{Cell, RefCell};
use std::fs::{Metadata, OpenFile, OpenOptions};
use std::io;
use std::io::{ErrorKind, Read, Seek, SeekFrom, Write};
use std::rc::Rc;
use std::rt::Files;

/// A system in which `vol/1/a` may be made, and nothing else. Its clones are the same system.
#[derive(Clone, Drop)]
pub struct System {
    state: Rc<State>,
}

#[derive(Drop)]
struct State {
    // What was made, what was opened and what was synced, a line each.
    notes: RefCell<Vec<u8>>,
    // What the file holds.
    bytes: RefCell<Vec<u8>>,
    // How many of the parts are there, from the first on.
    made: Cell<usize>,
    // How many calls were made.
    calls: Cell<u32>,
    // The number of the one that fails, from 1.
    fails: u32,
    // How many bytes a read or a write moves at most.
    most: usize,
}

const PARTS: [&str; 4] = [".", "vol", "vol/1", "vol/1/a"];

impl System {
    /// An empty system. The call with the number `fails` fails, and each read and write moves one byte at most.
    pub fn new(alloc: Global, fails: u32) -> Result<System, AllocError> {
        System::moving(alloc, fails, 1)
    }

    /// An empty system. The call with the number `fails` fails, and each read and write moves so many bytes at most.
    pub fn moving(alloc: Global, fails: u32, most: usize) -> Result<System, AllocError> {
        let state = State {
            notes: RefCell::new(Vec::new(alloc)),
            bytes: RefCell::new(Vec::new(alloc)),
            made: Cell::new(1),
            calls: Cell::new(0),
            fails,
            most,
        };
        Ok(System {
            state: Rc::new(alloc, state)?,
        })
    }

    /// How many calls were made, what was made, opened and synced, and what the file holds. None while a clone is in
    /// use.
    pub fn into_parts(self) -> Option<(u32, Vec<u8>, Vec<u8>)> {
        let state = Rc::into_inner(self.state)?;
        Some((
            state.calls.get(),
            state.notes.into_inner(),
            state.bytes.into_inner(),
        ))
    }
}

impl State {
    // Counts a call, and fails where it is told to.
    fn turn(&self) -> io::Result<()> {
        let call = self.calls.get().saturating_add(1);
        self.calls.set(call);
        if call == self.fails {
            return Err(ErrorKind::PermissionDenied.into());
        }
        Ok(())
    }

    // Notes what was done with the part of this number.
    fn note(&self, what: &str, part: usize) -> io::Result<()> {
        let Some(path) = PARTS.get(part) else {
            return Err(ErrorKind::NotFound.into());
        };
        let mut notes = self.notes.try_borrow_mut()?;
        notes.extend_from_slice(what.as_bytes())?;
        notes.extend_from_slice(path.as_bytes())?;
        notes.extend_from_slice(b"\n")?;
        Ok(())
    }

    // Makes the part with this path, below those that are there.
    fn make(&self, path: &str) -> io::Result<()> {
        let made = self.made.get();
        match PARTS.iter().position(|part| *part == path) {
            Some(part) if part < made => Err(ErrorKind::AlreadyExists.into()),
            Some(part) if part == made => {
                self.made.set(part + 1);
                self.note("made ", part)
            }
            _ => Err(ErrorKind::NotFound.into()),
        }
    }

    // The number of the part with this path, which is there.
    fn find(&self, path: &str) -> io::Result<usize> {
        match PARTS.iter().position(|part| *part == path) {
            Some(part) if part < self.made.get() => Ok(part),
            _ => Err(ErrorKind::NotFound.into()),
        }
    }
}

// Puts a front of what is held from this place on into the buffer, and answers how many bytes.
fn give(held: &[u8], at: usize, into: &mut [u8], most: usize) -> usize
    ensures within { result ≤ length into.new }
    ensures room { length into.new ≡ length into.old }
{
    let start = at.min(held.len());
    let count = into.len().min(most).min(held.len() - start);
    into[..count].copy_from_slice(&held[start..start + count]);
    count
}

// Writes the bytes over what is held from this place on, or behind it.
fn take(held: &mut Vec<u8>, at: usize, from: &[u8]) -> Result<(), AllocError> {
    let start = at.min(held.len());
    let over = from.len().min(held.len() - start);
    held[start..start + over].copy_from_slice(&from[..over]);
    held.extend_from_slice(&from[over..])?;
    Ok(())
}

/// An open file or folder.
#[derive(Drop)]
pub struct Opened {
    state: Rc<State>,
    part: usize,
    at: usize,
}

impl Read for Opened {
    fn read(&mut self, into: &mut [u8]) -> io::Result<usize> {
        self.state.turn()?;
        let bytes = self.state.bytes.try_borrow()?;
        let count = give(&bytes, self.at, into, self.state.most);
        self.at = self.at.saturating_add(count);
        Ok(count)
    }
}

impl Write for Opened {
    fn write(&mut self, from: &[u8]) -> io::Result<usize> {
        self.state.turn()?;
        let count = from.len().min(self.state.most);
        let mut bytes = self.state.bytes.try_borrow_mut()?;
        take(&mut bytes, self.at, &from[..count])?;
        self.at = self.at.saturating_add(count);
        Ok(count)
    }

    fn flush(&mut self) -> io::Result<()> {
        Ok(())
    }
}

impl Seek for Opened {
    fn seek(&mut self, to: SeekFrom) -> io::Result<u64> {
        self.state.turn()?;
        match to {
            SeekFrom::Start(at) => {
                self.at = at as usize;
                Ok(at)
            }
            _ => Err(ErrorKind::Unsupported.into()),
        }
    }
}

impl OpenFile for Opened {
    fn metadata(&self) -> io::Result<Metadata> {
        self.state.turn()?;
        Ok(Metadata::of_file(self.state.bytes.try_borrow()?.len() as u64))
    }

    fn set_len(&self, _size: u64) -> io::Result<()> {
        Err(ErrorKind::Unsupported.into())
    }

    fn sync_all(&self) -> io::Result<()> {
        self.state.turn()?;
        self.state.note("synced ", self.part)
    }

    fn sync_data(&self) -> io::Result<()> {
        Err(ErrorKind::Unsupported.into())
    }
}

impl Files for System {
    type File = Opened;

    type Dir = Opened;

    fn open_file(&self, how: &OpenOptions, path: &str) -> io::Result<Opened> {
        self.state.turn()?;
        if how.asks_create_new() {
            self.state.make(path)?;
        }
        let part = self.state.find(path)?;
        if !how.asks_create_new() {
            self.state.note("opened ", part)?;
        }
        Ok(Opened {
            state: self.state.clone()?,
            part,
            at: 0,
        })
    }

    fn open_dir(&self, _path: &str) -> io::Result<Opened> {
        Err(ErrorKind::Unsupported.into())
    }

    fn metadata(&self, path: &str) -> io::Result<Metadata> {
        self.state.turn()?;
        self.state.find(path)?;
        Ok(Metadata::of_dir())
    }

    fn symlink_metadata(&self, path: &str) -> io::Result<Metadata> {
        self.metadata(path)
    }

    fn copy(&self, _from: &str, _to: &str) -> io::Result<u64> {
        Err(ErrorKind::Unsupported.into())
    }

    fn rename(&self, _from: &str, _to: &str) -> io::Result<()> {
        Err(ErrorKind::Unsupported.into())
    }

    fn remove_file(&self, _path: &str) -> io::Result<()> {
        Err(ErrorKind::Unsupported.into())
    }

    fn create_dir(&self, path: &str) -> io::Result<()> {
        self.state.turn()?;
        self.state.make(path)
    }

    fn remove_dir(&self, _path: &str) -> io::Result<()> {
        Err(ErrorKind::Unsupported.into())
    }

    fn remove_dir_all<B: Allocator>(&self, _alloc: B, _path: &str) -> io::Result<()> {
        Err(ErrorKind::Unsupported.into())
    }
}
