// What a stored file asks of the system.
ghost use Rattle.std.specs.Prelude.{◌≡◌, ◌≢◌, ◌++◌, ◌∷◌, [], List, IfOk, IfErr, OnOk, OnErr, if◌then◌else◌};
ghost use Rattle.std.specs.IoError.{error_kind};
ghost use Rattle.ficus_file_disk.specs.Told.{Told, Opened, OpenedToRead, NotThere, Made, Emptied, Renamed, Measured, Moved, Gave, Took, Synced, FolderThere, FolderMissing, FolderMade, FolderSynced, Refused};

use std::fs::{File, OpenFile, OpenOptions};
use std::io::{ErrorKind, Read, Seek, SeekFrom, Write};
use std::rt::Files;
use std::{fs, io};

/// The calls on the system for one file and the folders above it.
pub trait System {
    /// The file while it is open.
    type File: Drop;

    /// The unit type where the system tells what it was asked, and the empty type where it doesn't.
    ghost tells: { Type 0 };

    /// The calls with their answers, in order. A claim only where the system tells them.
    ghost told: { Self → List Told };

    /// Opens the file, to read and write it.
    fn open(&mut self, path: &str) -> io::Result<Self::File>
        ensures opened { tells → OnOk result (told self.new ≡ told self.old ++ Opened path.now ∷ []) }
        ensures missing { tells → IfErr result (λ error. error_kind error ≡ ErrorKind.NotFound
            → told self.new ≡ told self.old ++ NotThere path.now ∷ []) }
        ensures refused { tells → IfErr result (λ error. error_kind error ≢ ErrorKind.NotFound
            → told self.new ≡ told self.old ++ Refused ∷ []) };

    /// Makes the file, where nothing is, and opens it.
    fn make(&mut self, path: &str) -> io::Result<Self::File>
        ensures told { tells → OnOk result (told self.new ≡ told self.old ++ Made path.now ∷ []) }
        ensures refused { tells → OnErr result (told self.new ≡ told self.old ++ Refused ∷ []) };

    /// Opens the file, to read it alone.
    fn open_to_read(&mut self, path: &str) -> io::Result<Self::File>
        ensures opened { tells → OnOk result (told self.new ≡ told self.old ++ OpenedToRead path.now ∷ []) }
        ensures missing { tells → IfErr result (λ error. error_kind error ≡ ErrorKind.NotFound
            → told self.new ≡ told self.old ++ NotThere path.now ∷ []) }
        ensures refused { tells → IfErr result (λ error. error_kind error ≢ ErrorKind.NotFound
            → told self.new ≡ told self.old ++ Refused ∷ []) };

    /// Makes the file, or empties it where it is there, and opens it.
    fn make_empty(&mut self, path: &str) -> io::Result<Self::File>
        ensures told { tells → OnOk result (told self.new ≡ told self.old ++ Emptied path.now ∷ []) }
        ensures refused { tells → OnErr result (told self.new ≡ told self.old ++ Refused ∷ []) };

    /// Gives the file another path, in place of one that is there.
    fn rename(&mut self, path: &str, place: &str) -> io::Result<()>
        ensures told { tells → OnOk result (told self.new ≡ told self.old ++ Renamed path.now place.now ∷ []) }
        ensures refused { tells → OnErr result (told self.new ≡ told self.old ++ Refused ∷ []) };

    /// How many bytes the file has.
    fn measure(&mut self, file: &Self::File) -> io::Result<u64>
        ensures told { tells → IfOk result (λ size. told self.new ≡ told self.old ++ Measured size ∷ []) }
        ensures refused { tells → OnErr result (told self.new ≡ told self.old ++ Refused ∷ []) };

    /// Goes to this place of the file.
    fn move_to(&mut self, file: &mut Self::File, at: u64) -> io::Result<u64>
        ensures told { tells → OnOk result (told self.new ≡ told self.old ++ Moved at ∷ []) }
        ensures refused { tells → OnErr result (told self.new ≡ told self.old ++ Refused ∷ []) };

    /// Fills the buffer from there.
    fn fill(&mut self, file: &mut Self::File, into: &mut [u8]) -> io::Result<()>
        ensures told { tells → OnOk result (told self.new ≡ told self.old ++ Gave into.new ∷ []) }
        ensures refused { tells → OnErr result (told self.new ≡ told self.old ++ Refused ∷ []) };

    /// Writes all the bytes there.
    fn put(&mut self, file: &mut Self::File, bytes: &[u8]) -> io::Result<()>
        ensures told { tells → OnOk result (told self.new ≡ told self.old ++ Took bytes.now ∷ []) }
        ensures refused { tells → OnErr result (told self.new ≡ told self.old ++ Refused ∷ []) };

    /// Syncs the file.
    fn sync(&mut self, file: &Self::File) -> io::Result<()>
        ensures told { tells → OnOk result (told self.new ≡ told self.old ++ Synced ∷ []) }
        ensures refused { tells → OnErr result (told self.new ≡ told self.old ++ Refused ∷ []) };

    /// Whether the folder is there.
    fn has_folder(&mut self, folder: &str) -> io::Result<bool>
        ensures told { tells → IfOk result (λ there. told self.new
            ≡ told self.old ++ (if there then FolderThere folder.now else FolderMissing folder.now) ∷ []) }
        ensures refused { tells → OnErr result (told self.new ≡ told self.old ++ Refused ∷ []) };

    /// Makes the folder, and those above it that are missing.
    fn make_folder(&mut self, folder: &str) -> io::Result<()>
        ensures told { tells → OnOk result (told self.new ≡ told self.old ++ FolderMade folder.now ∷ []) }
        ensures refused { tells → OnErr result (told self.new ≡ told self.old ++ Refused ∷ []) };

    /// Syncs the folder.
    fn sync_folder(&mut self, folder: &str) -> io::Result<()>
        ensures told { tells → OnOk result (told self.new ≡ told self.old ++ FolderSynced folder.now ∷ []) }
        ensures refused { tells → OnErr result (told self.new ≡ told self.old ++ Refused ∷ []) };
}

/// The calls on a runtime. It tells nothing of them: that each line makes the call which the trait names is trusted.
#[derive(Drop)]
pub struct Runtime<R: Files + Clone + Drop> {
    rt: R,
}

impl<R: Files + Clone + Drop> Runtime<R> {
    /// The runtime's files.
    pub fn new(rt: R) -> Runtime<R> {
        Runtime { rt }
    }
}

impl<R: Files + Clone + Drop> System for Runtime<R> {
    type File = R::File;

    ghost tells = { ⊥ };

    ghost told = { λ _. [] };

    fn open(&mut self, path: &str) -> io::Result<R::File> {
        OpenOptions::new()
            .read(true)
            .write(true)
            .open(&self.rt, path)
    }

    fn make(&mut self, path: &str) -> io::Result<R::File> {
        File::create_new(&self.rt, path)
    }

    fn open_to_read(&mut self, path: &str) -> io::Result<R::File> {
        File::open(&self.rt, path)
    }

    fn make_empty(&mut self, path: &str) -> io::Result<R::File> {
        File::create(&self.rt, path)
    }

    fn rename(&mut self, path: &str, place: &str) -> io::Result<()> {
        fs::rename(&self.rt, path, place)
    }

    fn measure(&mut self, file: &R::File) -> io::Result<u64> {
        Ok(file.metadata()?.len())
    }

    fn move_to(&mut self, file: &mut R::File, at: u64) -> io::Result<u64> {
        file.seek(SeekFrom::Start(at))
    }

    fn fill(&mut self, file: &mut R::File, into: &mut [u8]) -> io::Result<()> {
        file.read_exact(into)
    }

    fn put(&mut self, file: &mut R::File, bytes: &[u8]) -> io::Result<()> {
        file.write_all(bytes)
    }

    fn sync(&mut self, file: &R::File) -> io::Result<()> {
        file.sync_all()
    }

    fn has_folder(&mut self, folder: &str) -> io::Result<bool> {
        fs::exists(&self.rt, folder)
    }

    fn make_folder(&mut self, folder: &str) -> io::Result<()> {
        fs::create_dir_all(&self.rt, folder)
    }

    fn sync_folder(&mut self, folder: &str) -> io::Result<()> {
        File::open(&self.rt, folder)?.sync_all()
    }
}
