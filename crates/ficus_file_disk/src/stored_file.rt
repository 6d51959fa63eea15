// A file of the system that may be missing, with the system's errors.
ghost use Rattle.std.specs.Prelude.{◌≡◌, ◌⊎◌, ◌+◌, ◌≤◌, ◌++◌, ◌∷◌, [], ℕ, length, map, is_some, false, IfOk, OnOk, OnErr, IfSome, None, string_bytes};
ghost use Rattle.ficus_file_disk.specs.Told.{AreRefused, Gave, IsMeasured, IsMissing, IsRead, IsSynced, IsWritten, Moved, NotThere, Took, found, made};

use crate::folders;
use crate::system::System;
use std::io;
use std::io::ErrorKind;

/// A file that may be missing. Clauses speak of what the system was asked and what it answered, where it tells that.
#[derive(Drop)]
pub(crate) struct StoredFile<S: System + Drop> {
    // Opened by the first call that finds or makes it.
    file: Option<S::File>,
    // So many of the folders above it, the nearest first, are to be synced with it: those in which something was made,
    // and at first its own in any case, since whoever made it may have been stopped before that.
    unsynced: usize,
    path: String,
    // Kept as long as its file.
    system: S,
}

impl<S: System + Drop> StoredFile<S> {
    /// The file at `path`, which no call has touched.
    pub(crate) fn new(system: S, path: String) -> StoredFile<S>
        ensures { result ≡ record { file = None; unsynced = 1; path = path; system = system } }
    {
        StoredFile {
            file: None,
            unsynced: 1,
            path,
            system,
        }
    }

    /// The system, once the file is closed.
    pub(crate) fn into_system(self) -> S
        ensures { result ≡ self.system }
    {
        let StoredFile { file, system, .. } = self;
        drop(file);
        system
    }

    /// How many bytes it has, and 0 where it is missing.
    pub(crate) fn size(&mut self) -> io::Result<u64>
        ensures place { self.new.path ≡ self.old.path }
        ensures unsynced { self.new.unsynced ≡ self.old.unsynced }
        ensures told { S.tells → IfOk result (IsMeasured (is_some self.old.file) (string_bytes self.old.path)
            (S.told self.old.system) (S.told self.new.system)) }
        ensures refused { S.tells → OnErr result (AreRefused (S.told self.old.system) (S.told self.new.system)) }
    {
        self.find()?;
        match &self.file {
            Some(file) => self.system.measure(file),
            None => Ok(0),
        }
    }

    /// Fills the buffer from this place on. The end of the file before that is an error.
    pub(crate) fn read(&mut self, at: u64, into: &mut [u8]) -> io::Result<()>
        ensures place { self.new.path ≡ self.old.path }
        ensures unsynced { self.new.unsynced ≡ self.old.unsynced }
        ensures told { S.tells → OnOk result (IsRead (is_some self.old.file) (string_bytes self.old.path)
            (S.told self.old.system) (S.told self.new.system) at into.new) }
        ensures refused { S.tells → OnErr result (AreRefused (S.told self.old.system) (S.told self.new.system)
            ⊎ IsMissing (is_some self.old.file) (string_bytes self.old.path) (S.told self.old.system)
            (S.told self.new.system)) }
    {
        self.find()?;
        match &mut self.file {
            Some(file) => read_from(&mut self.system, file, at, into),
            None if into.is_empty() => Ok(()),
            None => Err(ErrorKind::UnexpectedEof.into()),
        }
    }

    /// Writes all the bytes from this place on. A missing file is made, and its folders where they are missing.
    pub(crate) fn write(&mut self, at: u64, bytes: &[u8]) -> io::Result<()>
        ensures place { self.new.path ≡ self.old.path }
        ensures unsynced { self.old.unsynced ≤ self.new.unsynced }
        ensures told { S.tells → OnOk result (IsWritten (is_some self.old.file) (string_bytes self.old.path)
            (S.told self.old.system) (S.told self.new.system) at bytes.now self.new.unsynced) }
        ensures refused { S.tells → OnErr result (AreRefused (S.told self.old.system) (S.told self.new.system)) }
    {
        self.find()?;
        let mut file = match self.file.take() {
            Some(file) => file,
            None => self.make()?,
        };
        let written = write_from(&mut self.system, &mut file, at, bytes);
        self.file = Some(file);
        written
    }

    /// Syncs it and the folders that are to be. Nothing is done where it is missing.
    pub(crate) fn sync(&mut self) -> io::Result<()>
        ensures place { self.new.path ≡ self.old.path }
        ensures told { S.tells → OnOk result (IsSynced (is_some self.old.file) (string_bytes self.old.path)
            (S.told self.old.system) (S.told self.new.system) self.old.unsynced self.new.unsynced) }
        ensures unsynced { OnErr result (self.new.unsynced ≡ self.old.unsynced) }
        ensures refused { S.tells → OnErr result (AreRefused (S.told self.old.system) (S.told self.new.system)) }
    {
        self.find()?;
        if let Some(file) = &self.file {
            self.system.sync(file)?;
            folders::sync(&mut self.system, &self.path, self.unsynced)?;
            self.unsynced = 0;
        }
        Ok(())
    }

    /// Opens it anew, and syncs it.
    pub(crate) fn again(&mut self) -> io::Result<()>
        ensures place { self.new.path ≡ self.old.path }
        ensures told { S.tells → OnOk result (IsSynced false (string_bytes self.old.path)
            (S.told self.old.system) (S.told self.new.system) self.old.unsynced self.new.unsynced) }
        ensures unsynced { OnErr result (self.new.unsynced ≡ self.old.unsynced) }
        ensures refused { S.tells → OnErr result (AreRefused (S.told self.old.system) (S.told self.new.system)) }
    {
        self.file = None;
        self.sync()
    }

    // Opens it, where it isn't open and isn't missing.
    fn find(&mut self) -> io::Result<()>
        ensures place { self.new.path ≡ self.old.path }
        ensures unsynced { self.new.unsynced ≡ self.old.unsynced }
        ensures there { S.tells → OnOk result (IfSome self.new.file (λ _. S.told self.new.system
            ≡ S.told self.old.system ++ found (is_some self.old.file) (string_bytes self.old.path))) }
        ensures missing { S.tells → OnOk result (self.new.file ≡ None → (self.old.file ≡ None)
            × (S.told self.new.system ≡ S.told self.old.system ++ NotThere (string_bytes self.old.path) ∷ [])) }
        ensures refused { S.tells → OnErr result (AreRefused (S.told self.old.system) (S.told self.new.system)) }
    {
        if self.file.is_none() {
            self.file = open_if_there(&mut self.system, &self.path)?;
        }
        Ok(())
    }

    // Makes it, and its folders where they are missing. What a failure leaves is synced too, once the file is there.
    fn make(&mut self) -> io::Result<S::File>
        ensures place { self.new.path ≡ self.old.path }
        ensures unsynced { self.old.unsynced ≤ self.new.unsynced }
        ensures told { S.tells → OnOk result ((missing : ℕ) × (missing + 1 ≤ self.new.unsynced)
            × (S.told self.new.system ≡ S.told self.old.system ++ made missing (string_bytes self.old.path))) }
        ensures refused { S.tells → OnErr result (AreRefused (S.told self.old.system) (S.told self.new.system)) }
    {
        let missing = folders::count_missing(&mut self.system, &self.path)?;
        self.unsynced = self.unsynced.max(missing.saturating_add(1));
        folders::make(&mut self.system, &self.path)?;
        self.system.make(&self.path)
    }
}

// The file, or none where the system says that it isn't there. Any other refusal is an error.
fn open_if_there<S: System>(system: &mut S, path: &str) -> io::Result<Option<S::File>>
    ensures there { S.tells → IfOk result (λ file. IfSome file (λ _. S.told system.new
        ≡ S.told system.old ++ found false path.now)) }
    ensures missing { S.tells → IfOk result (λ file. file ≡ None → S.told system.new
        ≡ S.told system.old ++ NotThere path.now ∷ []) }
    ensures refused { S.tells → OnErr result (AreRefused (S.told system.old) (S.told system.new)) }
{
    match system.open(path) {
        Ok(file) => Ok(Some(file)),
        Err(error) if error.kind() == ErrorKind::NotFound => Ok(None),
        Err(error) => Err(error),
    }
}

fn read_from<S: System>(
    system: &mut S,
    file: &mut S::File,
    at: u64,
    into: &mut [u8],
) -> io::Result<()>
    ensures told { S.tells → OnOk result (S.told system.new ≡ S.told system.old ++ Moved at ∷ Gave into.new ∷ []) }
    ensures refused { S.tells → OnErr result (AreRefused (S.told system.old) (S.told system.new)) }
{
    system.move_to(file, at)?;
    system.fill(file, into)
}

fn write_from<S: System>(
    system: &mut S,
    file: &mut S::File,
    at: u64,
    bytes: &[u8],
) -> io::Result<()>
    ensures told { S.tells → OnOk result (S.told system.new ≡ S.told system.old ++ Moved at ∷ Took bytes.now ∷ []) }
    ensures refused { S.tells → OnErr result (AreRefused (S.told system.old) (S.told system.new)) }
{
    system.move_to(file, at)?;
    system.put(file, bytes)
}
