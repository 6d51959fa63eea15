ghost use Rattle.std.specs.Prelude.{◌↔◌, ◌<◌, All, Contains, IsTrue};
ghost use Rattle.ficus_ids.specs.Members.{IsMember};
ghost use Rattle.ficus_vectors.specs.Vector.{count_of};
ghost use Rattle.ficus_file.specs.declared.version.Version.{Version as VersionValue};
ghost use Rattle.ficus_durable_state.specs.Saved.{IsOfPast, IsEntryOfPast, IsFileOfPast};

use crate::Saved;
use ficus_entry::{Entry, InOrder};
use ficus_file::{FileReplica, FilesInOrder, Version};
use ficus_ids::Id;
use ficus_vectors::Vector;

// What tables may hold of the updates of the replica itself: only those that it has made.
impl Saved {
    /// Whether it has issued each identifier of its own in the entries.
    pub fn has_issued_entries(&self, entries: &InOrder<'_>) -> bool
        ensures { IsTrue result ↔ All (IsEntryOfPast self.now.me self.now.next) entries.now }
    {
        for index in 0..entries.len() {
            if !self.has_issued_entry(entries.at(index)) {
                return false;
            }
        }
        true
    }

    /// Whether it has issued each identifier and each count of its own in the files.
    pub fn has_issued_files(&self, files: &FilesInOrder<'_>) -> bool
        requires { IsMember self.now.members self.now.me }
        ensures { IsTrue result ↔ All (IsFileOfPast self.now.me self.now.next) files.now }
    {
        for index in 0..files.len() {
            if !self.has_issued_file(files.at(index)) {
                return false;
            }
        }
        true
    }

    /// Whether it has issued the identifier of the file, if that is its own, and each count of its own in it.
    pub fn has_issued_file(&self, file: &FileReplica) -> bool
        requires { IsMember self.now.members self.now.me }
        ensures { IsTrue result ↔ IsFileOfPast self.now.me self.now.next file.now }
    {
        self.has_issued(file.id)
            && self.has_counted_all(file.versions.items())
            && self.has_counted(file.covered)
    }

    // Whether it has issued each identifier of its own in the entry.
    fn has_issued_entry(&self, entry: &Entry) -> bool
        ensures { IsTrue result ↔ IsEntryOfPast self.now.me self.now.next entry.now }
    {
        self.has_issued(entry.id) && self.has_issued(entry.dir) && self.has_issued(entry.target)
    }

    // Whether the versions count only updates that it has made.
    fn has_counted_all(&self, versions: &[Version]) -> bool
        requires { IsMember self.now.members self.now.me }
        ensures { IsTrue result ↔ ((version : VersionValue) → Contains versions.now version →
            count_of version.vector self.now.me < self.now.next) }
    {
        for version in versions {
            if !self.has_counted(version.vector) {
                return false;
            }
        }
        true
    }

    // Whether the vector counts only updates that it has made.
    fn has_counted(&self, vector: Vector) -> bool
        requires { IsMember self.now.members self.now.me }
        ensures { IsTrue result ↔ (count_of vector self.now.me < self.now.next) }
    {
        let _ = self.members.count();
        vector.count(self.me) < self.next
    }

    // Whether it has issued the identifier, or the identifier isn't its own.
    fn has_issued(&self, id: Id) -> bool
        ensures { IsTrue result ↔ IsOfPast self.now.me self.now.next id }
    {
        id.replica != self.me || id.number < self.next
    }
}
