// A system for tests that tells what it is asked.
ghost use Rattle.std.specs.Prelude.{◌≡◌, ◌++◌, ◌∷◌, [], ⊤, List, OnOk, OnErr, map, string_bytes};
ghost use Rattle.ficus_file_disk.specs.Told.{Told, Refused};
ghost use Rattle.ficus_file_disk_tests.specs.Noted.{told_of};

use crate::note::Note;
use ficus_file_disk::System;
use std::alloc::Global;
use std::io;
use std::io::ErrorKind;
use std::marker::Model;
use std::process::Abort;

/// A system that has another do what it is asked, and keeps a note of each call.
#[derive(Drop)]
pub struct Telling<S: System + Drop, R: Abort + Drop> {
    system: S,
    rt: R,
    alloc: Global,
    notes: Vec<Note>,
}

impl<S: System + Drop, R: Abort + Drop> Model for Telling<S, R> {
    ghost Value = { List Told };

    ghost view = { λ s. map told_of s.notes.items };
}

impl<S: System + Drop, R: Abort + Drop> Telling<S, R> {
    /// One over this system, which was asked nothing.
    pub fn over(system: S, rt: R, alloc: Global) -> Telling<S, R> {
        Telling {
            system,
            rt,
            alloc,
            notes: Vec::new(alloc),
        }
    }

    /// The notes, in order.
    pub fn into_notes(self) -> Vec<Note> {
        let Telling { notes, .. } = self;
        notes
    }

    fn note(&mut self, note: Note)
        ensures { self.new ≡ self.old ++ told_of note ∷ [] }
    {
        self.notes.push(note).expect(&self.rt, "memory for a note");
    }

    fn name(&self, path: &str) -> String
        ensures { string_bytes result ≡ path.now }
    {
        String::from_str(self.alloc, path).expect(&self.rt, "memory for a path")
    }

    fn bytes(&self, bytes: &[u8]) -> Vec<u8>
        ensures { result.items ≡ bytes.now }
    {
        Vec::from_slice(self.alloc, bytes).expect(&self.rt, "memory for bytes")
    }

    // Notes what comes of a call that was answered, or that it was refused.
    fn done<T: Drop>(&mut self, answer: io::Result<T>, note: Note) -> io::Result<T>
        ensures same { result ≡ answer }
        ensures told { OnOk result (self.new ≡ self.old ++ told_of note ∷ []) }
        ensures refused { OnErr result (self.new ≡ self.old ++ Refused ∷ []) }
    {
        match &answer {
            Ok(_) => self.note(note),
            Err(_) => self.note(Note::Refused),
        }
        answer
    }
}

impl<S: System + Drop, R: Abort + Drop> System for Telling<S, R> {
    type File = S::File;

    ghost tells = { ⊤ };

    ghost told = { λ calls. calls };

    fn open(&mut self, path: &str) -> io::Result<S::File> {
        let answer = self.system.open(path);
        let name = self.name(path);
        let note = match &answer {
            Ok(_) => Note::Opened(name),
            Err(error) if error.kind() == ErrorKind::NotFound => Note::NotThere(name),
            Err(_) => Note::Refused,
        };
        self.note(note);
        answer
    }

    fn make(&mut self, path: &str) -> io::Result<S::File> {
        let answer = self.system.make(path);
        let name = self.name(path);
        self.done(answer, Note::Made(name))
    }

    fn open_to_read(&mut self, path: &str) -> io::Result<S::File> {
        let answer = self.system.open_to_read(path);
        let name = self.name(path);
        let note = match &answer {
            Ok(_) => Note::OpenedToRead(name),
            Err(error) if error.kind() == ErrorKind::NotFound => Note::NotThere(name),
            Err(_) => Note::Refused,
        };
        self.note(note);
        answer
    }

    fn make_empty(&mut self, path: &str) -> io::Result<S::File> {
        let answer = self.system.make_empty(path);
        let name = self.name(path);
        self.done(answer, Note::Emptied(name))
    }

    fn rename(&mut self, path: &str, place: &str) -> io::Result<()> {
        let answer = self.system.rename(path, place);
        let name = self.name(path);
        let other = self.name(place);
        self.done(answer, Note::Renamed(name, other))
    }

    fn measure(&mut self, file: &S::File) -> io::Result<u64> {
        let answer = self.system.measure(file);
        let size = *answer.as_ref().unwrap_or(&0);
        self.done(answer, Note::Measured(size))
    }

    fn move_to(&mut self, file: &mut S::File, at: u64) -> io::Result<u64> {
        let answer = self.system.move_to(file, at);
        self.done(answer, Note::Moved(at))
    }

    fn fill(&mut self, file: &mut S::File, into: &mut [u8]) -> io::Result<()> {
        let answer = self.system.fill(file, into);
        let bytes = self.bytes(into);
        self.done(answer, Note::Gave(bytes))
    }

    fn put(&mut self, file: &mut S::File, bytes: &[u8]) -> io::Result<()> {
        let answer = self.system.put(file, bytes);
        let bytes = self.bytes(bytes);
        self.done(answer, Note::Took(bytes))
    }

    fn sync(&mut self, file: &S::File) -> io::Result<()> {
        let answer = self.system.sync(file);
        self.done(answer, Note::Synced)
    }

    fn has_folder(&mut self, folder: &str) -> io::Result<bool> {
        let answer = self.system.has_folder(folder);
        let name = self.name(folder);
        let note = match &answer {
            Ok(true) => Note::FolderThere(name),
            Ok(false) => Note::FolderMissing(name),
            Err(_) => Note::Refused,
        };
        self.note(note);
        answer
    }

    fn make_folder(&mut self, folder: &str) -> io::Result<()> {
        let answer = self.system.make_folder(folder);
        let name = self.name(folder);
        self.done(answer, Note::FolderMade(name))
    }

    fn sync_folder(&mut self, folder: &str) -> io::Result<()> {
        let answer = self.system.sync_folder(folder);
        let name = self.name(folder);
        self.done(answer, Note::FolderSynced(name))
    }
}
