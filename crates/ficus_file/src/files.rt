ghost use Rattle.std.specs.Prelude.{◌≡◌, ◌≤◌, ◌<◌, [], length, slice_get, slice_set, Some, IfOk, OnOk, OnErr};
ghost use Rattle.std.specs.Option.{option_copied};
ghost use Rattle.ficus_ids.specs.Rising.{Adds, PutsBy, ReplacesBy, LeavesOutBy};
ghost use Rattle.ficus_file.specs.File.{advanced, covered_file, MayAdvance};
ghost use Rattle.ficus_file.specs.Files.{id_of, AreFiles, IsSoundFile, IsRising, Holds, HoldsUnder, HoldsFile, IsChanged};
ghost use Rattle.ficus_file.specs.declared.file.FileReplica.{FileReplica as FileValue};

use crate::FileReplica;
use crate::shared::{Form, SharedFile};
use ficus_ids::{Id, Memory};
use ficus_persistent::PersistentList;
use ficus_table::{InOrder, Table};
use std::alloc::Global;
use std::marker::Model;

/// All files in the order of their identifiers.
pub type FilesInOrder<'a> = InOrder<'a, SharedFile>;

/// Files and directories with different identifiers. Contracts see them as a list in which the identifiers rise
/// strictly. A copy shares what it has with them.
#[derive(Drop)]
pub struct Files {
    table: Table<SharedFile>,
}

impl Model for Files {
    ghost use Rattle.std.specs.Prelude.{List};
    ghost use Rattle.ficus_file.specs.Files.{AreFiles};
    ghost use Rattle.ficus_file.specs.declared.file.FileReplica.{FileReplica as FileValue};

    ghost Value = { List FileValue };

    ghost view = { λ f. f.table.items };

    ghost invariant = { λ f. AreFiles f.table.items };
}

impl Files {
    /// No files. Takes no memory.
    pub fn new(alloc: Global) -> Files
        ensures { result ≡ [] }
    {
        Files {
            table: Table::new(alloc),
        }
    }

    /// These files, whose identifiers rise strictly. It takes less time than to put one after the other.
    pub fn of(alloc: Global, files: Vec<FileReplica>) -> Result<Files, Memory>
        requires { AreFiles files.items }
        ensures { IfOk result (λ held. held ≡ files.items) }
    {
        let rows = rows_of(alloc, files)?;
        Files::of_rows(alloc, &rows)
    }

    /// These files, which others may share and whose identifiers rise strictly.
    pub fn of_rows(alloc: Global, rows: &[SharedFile]) -> Result<Files, Memory>
        requires { AreFiles rows.now }
        ensures { IfOk result (λ held. held ≡ rows.now) }
    {
        let table = Table::of(alloc, rows)?;
        Ok(Files { table })
    }

    /// How many files there are.
    pub fn len(&self) -> usize
        ensures value { result ≡ length self.now }
        ensures files { AreFiles self.now }
    {
        self.table.len()
    }

    /// The file at a place in the order of identifiers, from 0. The place is below the length.
    pub fn at(&self, index: usize) -> &FileReplica
        requires { index < length self.now }
        ensures { slice_get self.now index ≡ Some result.now }
    {
        self.table.at(index)
    }

    /// The file with an identifier, or `None` exactly where no file has it.
    pub fn get(&self, id: Id) -> Option<&FileReplica>
        ensures found { HoldsUnder self.now id (option_copied result) }
        ensures files { AreFiles self.now }
    {
        self.table.get(id)
    }

    /// A copy of the files, which shares their rows, with memory from where these have theirs.
    pub fn copy(&self) -> Result<Files, Memory>
        ensures same { IfOk result (λ files. files ≡ self.now) }
        ensures files { AreFiles self.now }
    {
        let table = self.table.copy()?;
        Ok(Files { table })
    }

    /// The files in order, found in one walk: a look at one takes the same time wherever it stands, however many there
    /// are.
    pub fn in_order(&self) -> Result<FilesInOrder<'_>, Memory>
        ensures same { IfOk result (λ files. files ≡ self.now) }
        ensures files { AreFiles self.now }
    {
        self.table.in_order()
    }

    /// The files in order, in a list that shares its nodes with these.
    pub fn whole(&self) -> Result<PersistentList<SharedFile>, Memory>
        ensures { IfOk result (λ list. list ≡ self.now) }
    {
        self.table.whole()
    }

    /// The files in order, for others to share: who takes one in shares with these what is behind it.
    pub fn rows(&self) -> Result<Vec<SharedFile>, Memory>
        ensures same { IfOk result (λ rows. rows.items ≡ self.now) }
        ensures files { AreFiles self.now }
    {
        self.table.rows()
    }

    /// Adds a file whose identifier no file has. After `Memory` the files are as before.
    pub fn insert(&mut self, file: FileReplica) -> Result<(), Memory>
        requires new { Holds self.old file.id → ⊥ }
        requires may { IsSoundFile file }
        ensures added { OnOk result (Adds self.old self.new file) }
        ensures kept { OnErr result (self.new ≡ self.old) }
        ensures files { AreFiles self.new }
    {
        self.put(file)
    }

    /// Adds a file, in place of the one with its identifier if there is one. After `Memory` the files are as before.
    pub fn put(&mut self, file: FileReplica) -> Result<(), Memory>
        requires { IsSoundFile file }
        ensures puts { OnOk result (PutsBy id_of self.old self.new file) }
        ensures kept { OnErr result (self.new ≡ self.old) }
        ensures files { AreFiles self.new }
    {
        let row = SharedFile::of(self.table.allocator(), file)?;
        self.put_row(row)
    }

    /// Adds files, whose identifiers rise strictly, each in place of the one with its identifier if there is one. Where
    /// they are many it builds all anew in one walk, as [`Table::replace`] does. After `Memory` the files are as
    /// before.
    pub fn replace(&mut self, files: &[SharedFile]) -> Result<(), Memory>
        requires { AreFiles files.now }
        ensures replaced { OnOk result (ReplacesBy id_of self.old files.now self.new) }
        ensures kept { OnErr result (self.new ≡ self.old) }
        ensures files { AreFiles self.new }
    {
        self.table.replace(files)
    }

    /// The file with an identifier, which some file has. Files that take it in share with these what is behind it.
    pub fn share(&self, id: Id) -> Result<SharedFile, Memory>
        requires held { Holds self.now id }
        ensures found { IfOk result (λ file. HoldsUnder self.now id (Some file)) }
        ensures files { AreFiles self.now }
    {
        let Ok(index) = self.table.search(id) else {
            unreachable!()
        };
        self.table.row(index)
    }

    /// The files whose identifiers are none of these.
    pub fn without(&self, ids: &[Id]) -> Result<Files, Memory>
        ensures left { IfOk result (LeavesOutBy id_of self.now ids.now) }
        ensures files { IfOk result AreFiles }
    {
        let table = self.table.without(ids)?;
        Ok(Files { table })
    }

    /// One version in place of all those of the file with the identifier: over them, by a replica, and with these
    /// bytes. Takes no memory.
    pub fn advance(&mut self, id: Id, by: u8, bytes: Vec<u8>)
        requires at_least { 1 ≤ by }
        requires at_most { by ≤ 8 }
        requires held { HoldsFile self.old id (MayAdvance by) }
        ensures changed { IsChanged self.old self.new id (advanced by bytes.items) }
        ensures files { AreFiles self.new }
    {
        let Ok(index) = self.table.search(id) else {
            unreachable!()
        };
        let file = self.table.at(index).advanced(by, bytes);
        self.table.edit(index, Form::Another(file));
    }

    /// Each version of the file with the identifier is covered. Takes no memory.
    pub fn cover(&mut self, id: Id)
        requires held { Holds self.old id }
        ensures changed { IsChanged self.old self.new id covered_file }
        ensures files { AreFiles self.new }
    {
        let Ok(index) = self.table.search(id) else {
            unreachable!()
        };
        cover_at(&mut self.table, index);
    }

    // Adds a row, in place of the one with its identifier if there is one.
    fn put_row(&mut self, row: SharedFile) -> Result<(), Memory>
        requires { IsSoundFile row }
        ensures puts { OnOk result (PutsBy id_of self.old self.new row) }
        ensures kept { OnErr result (self.new ≡ self.old) }
        ensures files { AreFiles self.new }
    {
        self.table.put(row)
    }
}

// The files in memory that copies share.
fn rows_of(alloc: Global, files: Vec<FileReplica>) -> Result<Vec<SharedFile>, Memory>
    ensures { IfOk result (λ rows. rows.items ≡ files.items) }
{
    let mut rows = Vec::with_capacity(alloc, files.len())?;
    for file in files {
        rows.push(SharedFile::of(alloc, file)?)?;
    }
    Ok(rows)
}

// The file at an index is covered, whether it was edited or not. Takes no memory.
fn cover_at(table: &mut Table<SharedFile>, index: usize)
    requires { index < length table.old.items }
    ensures covered { (file : FileValue) → slice_get table.old.items index ≡ Some file
        → table.new.items ≡ slice_set table.old.items index (covered_file file) }
    ensures rising { IsRising table.new.items }
{
    match table.edit(index, Form::Covered) {
        None => {}
        Some(Form::Covered) => {}
        Some(Form::Another(file)) => cover_again(table, index, file),
    }
}

// In place of the covered row at an index stands this file, covered.
fn cover_again(table: &mut Table<SharedFile>, index: usize, file: FileReplica)
    requires within { index < length table.old.items }
    requires same_id { (was : FileValue) → slice_get table.old.items index ≡ Some was → was.id ≡ file.id }
    ensures covered { table.new.items ≡ slice_set table.old.items index (covered_file file) }
    ensures rising { IsRising table.new.items }
{
    let mut covered = file;
    covered.cover();
    table.edit(index, Form::Another(covered));
}
