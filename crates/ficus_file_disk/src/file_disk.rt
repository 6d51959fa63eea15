ghost use Rattle.std.specs.Prelude.{is_some, false, ◌⊎◌, ◌≡◌, ◌^◌, ◌≤◌, ⊤, IfOk, IsOk, IsErr, OnOk, OnErr, [], Ok, length, string_bytes};
ghost use Rattle.ficus_disk.specs.Bytes.{Torn};
ghost use Rattle.ficus_disk.specs.Crash.{Follows};
ghost use Rattle.ficus_faults.specs.Faults.{Rose, next_fault};
ghost use Rattle.ficus_file_disk.specs.Place.{Placed};
ghost use Rattle.ficus_file_disk.specs.Told.{AreRefused, IsMeasured, IsMissing, IsRead, IsSynced, IsWritten};

use crate::stored_file::StoredFile;
use crate::system::{Runtime, System};
use ficus_disk::Disk;
use ficus_faults::{Failed, Faults};
use ficus_ids::Memory;
use std::io;
use std::marker::Model;
use std::rt::Files;

/// A file of the system as a disk without a fuse. It tells nothing of what it holds, and what it asked of the system
/// where this tells it.
///
/// Nothing is touched before the first call. A file that the system says isn't there has size 0; its `sync` and `again`
/// make nothing and answer `Ok`, and its first `write` makes it, with the folders that are missing. Each of these, and
/// the one above them, is synced with the file at the next `sync`, and the folder of a file that was there at the
/// first. Any other refusal of the system is a fault, and so is the end of the file within a read.
#[derive(Drop)]
pub struct SystemDisk<S: System + Drop> {
    file: StoredFile<S>,
    faults: Faults,
}

/// A disk over a file of a runtime, which tells nothing of what it was asked.
pub type FileDisk<R> = SystemDisk<Runtime<R>>;

impl<S: System + Drop> Model for SystemDisk<S> {
    ghost Value = { Placed };

    ghost view = { λ d. record {
      path = string_bytes d.file.path;
      faults = d.faults;
      is_open = is_some d.file.file;
      unsynced = d.file.unsynced;
      told = S.told d.file.system;
    } };
}

impl<R: Files + Clone + Drop> SystemDisk<Runtime<R>> {
    /// The file at `path`, in the runtime's own terms, with no fault counted.
    pub fn new(rt: R, path: String) -> FileDisk<R>
        ensures { result ≡ record {
          path = string_bytes path;
          faults = 0;
          is_open = false;
          unsynced = 1;
          told = [];
        } }
    {
        SystemDisk::over(Runtime::new(rt), path)
    }
}

impl<S: System + Drop> SystemDisk<S> {
    /// The file at `path` of this system, in its own terms, with no fault counted.
    pub fn over(system: S, path: String) -> SystemDisk<S>
        ensures { result ≡ record {
          path = string_bytes path;
          faults = 0;
          is_open = false;
          unsynced = 1;
          told = S.told system;
        } }
    {
        SystemDisk {
            file: StoredFile::new(system, path),
            faults: Faults::new(),
        }
    }

    /// The system. The file, where it was opened, is closed.
    pub fn into_inner(self) -> S
        ensures { S.told result ≡ self.told }
    {
        let SystemDisk { file, .. } = self;
        file.into_system()
    }
}

// The system's answer, with one fault more where it is an error.
fn counted<T: Drop>(faults: &mut Faults, answer: io::Result<T>) -> Result<T, Failed>
    ensures answered { IfOk answer (λ value. result ≡ Ok value) }
    ensures refused { OnErr answer (IsErr result) }
    ensures steady { OnOk result (faults.new ≡ faults.old) }
    ensures counted { OnErr result (faults.new ≡ next_fault faults.old) }
    ensures failed { OnErr result (Rose faults.old faults.new) }
    ensures risen { faults.old ≤ faults.new }
{
    match answer {
        Ok(value) => Ok(value),
        Err(_) => Err(faults.raise()),
    }
}

impl<S: System + Drop> Disk for SystemDisk<S> {
    ghost tells = { ⊥ };

    ghost seen = { λ _. [] };

    ghost may_leave = { λ _ _. ⊤ };

    ghost left_since = { λ _ _ _. ⊤ };

    ghost room = { λ _. 2 ^ 64 };

    ghost faults = { λ d. d.faults };

    ghost seen_may_be_left = { λ none d. absurd none };

    ghost image_may_be_left = { λ none d pick. absurd none };

    ghost left_now = { λ none d t c le left. absurd none };

    ghost only_now = { λ d c left. left };

    ghost left_earlier = { λ d t u c le left. left };

    fn size(&mut self) -> Result<u64, Failed>
        ensures place { self.new.path ≡ self.old.path }
        ensures failed { OnErr result (Rose self.old.faults self.new.faults) }
        ensures steady { OnOk result (self.new.faults ≡ self.old.faults) }
        ensures risen { self.old.faults ≤ self.new.faults }
        ensures asked { S.tells → IfOk result (IsMeasured self.old.is_open self.old.path self.old.told self.new.told) }
        ensures unsynced { self.new.unsynced ≡ self.old.unsynced }
        ensures refused { S.tells → OnErr result (AreRefused self.old.told self.new.told) }
    {
        counted(&mut self.faults, self.file.size())
    }

    fn read(&mut self, at: u64, into: &mut [u8]) -> Result<(), Failed>
        ensures place { self.new.path ≡ self.old.path }
        ensures failed { OnErr result (Rose self.old.faults self.new.faults) }
        ensures steady { OnOk result (self.new.faults ≡ self.old.faults) }
        ensures risen { self.old.faults ≤ self.new.faults }
        ensures asked { S.tells → OnOk result (IsRead self.old.is_open self.old.path self.old.told self.new.told at
            into.new) }
        ensures unsynced { self.new.unsynced ≡ self.old.unsynced }
        ensures refused { S.tells → OnErr result (AreRefused self.old.told self.new.told
            ⊎ IsMissing self.old.is_open self.old.path self.old.told self.new.told) }
    {
        counted(&mut self.faults, self.file.read(at, into))
    }

    fn reserve(&mut self, upto: u64) -> Result<(), Memory>
        ensures reserved { OnOk result (upto ≤ 2 ^ 64) }

        // A write takes no memory anyway.
        ensures always { IsOk result }
        ensures kept { self.new ≡ self.old }
    {
        Ok(())
    }

    fn write(&mut self, at: u64, bytes: &[u8]) -> Result<(), Failed>
        ensures place { self.new.path ≡ self.old.path }
        ensures crash { Follows (Torn at (length bytes.now)) (λ _. ⊤) (λ _. ⊤) }
        ensures failed { OnErr result (Rose self.old.faults self.new.faults) }
        ensures steady { OnOk result (self.new.faults ≡ self.old.faults) }
        ensures risen { self.old.faults ≤ self.new.faults }
        ensures asked { S.tells → OnOk result (IsWritten self.old.is_open self.old.path self.old.told self.new.told at
            bytes.now self.new.unsynced) }
        ensures unsynced { self.old.unsynced ≤ self.new.unsynced }
        ensures refused { S.tells → OnErr result (AreRefused self.old.told self.new.told) }
    {
        counted(&mut self.faults, self.file.write(at, bytes))
    }

    fn sync(&mut self) -> Result<(), Failed>
        ensures place { self.new.path ≡ self.old.path }
        ensures failed { OnErr result (Rose self.old.faults self.new.faults) }
        ensures steady { OnOk result (self.new.faults ≡ self.old.faults) }
        ensures risen { self.old.faults ≤ self.new.faults }
        ensures asked { S.tells → OnOk result (IsSynced self.old.is_open self.old.path self.old.told self.new.told
            self.old.unsynced self.new.unsynced) }
        ensures unsynced { OnErr result (self.new.unsynced ≡ self.old.unsynced) }
        ensures refused { S.tells → OnErr result (AreRefused self.old.told self.new.told) }
    {
        counted(&mut self.faults, self.file.sync())
    }

    fn fused(&self) -> bool {
        false
    }

    fn arm(&mut self, _calls: u32, _pick: u8)
        ensures kept { self.new ≡ self.old }
    {}

    fn again(&mut self) -> Result<(), Failed>
        ensures place { self.new.path ≡ self.old.path }
        ensures failed { OnErr result (Rose self.old.faults self.new.faults) }
        ensures steady { OnOk result (self.new.faults ≡ self.old.faults) }
        ensures risen { self.old.faults ≤ self.new.faults }
        ensures asked { S.tells → OnOk result (IsSynced false self.old.path self.old.told self.new.told
            self.old.unsynced self.new.unsynced) }
        ensures unsynced { OnErr result (self.new.unsynced ≡ self.old.unsynced) }
        ensures refused { S.tells → OnErr result (AreRefused self.old.told self.new.told) }
    {
        counted(&mut self.faults, self.file.again())
    }
}
