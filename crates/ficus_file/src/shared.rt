ghost use Rattle.std.specs.Prelude.{◌≡◌, [], Ok, IfOk};
ghost use Rattle.ficus_file.specs.File.{covered_file};

use crate::FileReplica;
use ficus_ids::{Id, Memory};
use ficus_persistent::{Item, Spelled};
use ficus_table::Row;
use std::alloc::Global;
use std::marker::Model;
use std::rc::Rc;

/// A file that copies share, and beside it what it is once it is covered.
#[derive(Drop)]
pub struct SharedFile {
    twins: Twins,
}

// What has no versions is the same once it is covered, and needs no second file.
#[derive(Drop)]
enum Twins {
    Same(Rc<FileReplica>),
    Differ(Rc<Both>),
}

#[derive(Drop)]
struct Both {
    file: FileReplica,
    covered: FileReplica,
}

impl Model for SharedFile {
    ghost use Rattle.ficus_file.specs.declared.file.FileReplica.{FileReplica as FileValue};

    ghost Value = { FileValue };

    ghost use Rattle.ficus_file.specs.Twins.{first_of, AreTwins};

    ghost view = { λ h. first_of h.twins };

    ghost invariant = { λ h. AreTwins h.twins };
}

impl SharedFile {
    /// A file in memory that copies share.
    pub fn of(alloc: Global, file: FileReplica) -> Result<SharedFile, Memory>
        ensures { IfOk result (λ held. held ≡ file) }
    {
        if file.versions.items().is_empty() {
            SharedFile::alone(alloc, file)
        } else {
            SharedFile::beside(alloc, file)
        }
    }

    // A file that needs no second one.
    fn alone(alloc: Global, file: FileReplica) -> Result<SharedFile, Memory>
        requires { covered_file file ≡ file }
        ensures { IfOk result (λ held. held ≡ file) }
    {
        let file = Rc::new(alloc, file)?;
        Ok(SharedFile {
            twins: Twins::Same(file),
        })
    }

    // A file beside what it is once it is covered.
    fn beside(alloc: Global, file: FileReplica) -> Result<SharedFile, Memory>
        ensures { IfOk result (λ held. held ≡ file) }
    {
        let file = file.into_shared(alloc)?;
        let mut covered = file.copy(alloc)?;
        covered.cover();
        let both = Rc::new(alloc, Both { file, covered })?;
        Ok(SharedFile {
            twins: Twins::Differ(both),
        })
    }

    /// The file.
    pub fn file(&self) -> &FileReplica
        ensures { result.now ≡ self.now }
    {
        match &self.twins {
            Twins::Same(file) => file.as_ref(),
            Twins::Differ(both) => &both.as_ref().file,
        }
    }

    /// The file, covered.
    pub(crate) fn covered(&self) -> &FileReplica
        ensures { result.now ≡ covered_file self.now }
    {
        match &self.twins {
            Twins::Same(file) => file.as_ref(),
            Twins::Differ(both) => &both.as_ref().covered,
        }
    }
}

/// What becomes of a held file without memory.
#[derive(Drop)]
pub enum Form {
    Covered,
    Another(FileReplica),
}

impl Row for SharedFile {
    type Seen = FileReplica;

    type Form = Form;

    ghost use Rattle.ficus_file.specs.Files.{id_of};
    ghost use Rattle.ficus_file.specs.Twins.{become};

    ghost seen = { λ held. held };

    ghost formed = { become };

    ghost id_of = { id_of };

    fn look(&self) -> &FileReplica {
        self.file()
    }

    fn formed<'a>(&'a self, form: &'a Form) -> &'a FileReplica {
        match form {
            Form::Covered => self.covered(),
            Form::Another(file) => file,
        }
    }

    fn reformed(&self, alloc: Global, form: &Form) -> Result<SharedFile, Memory> {
        let file = self.formed(form).copy(alloc)?;
        SharedFile::of(alloc, file)
    }

    fn id(seen: &FileReplica) -> Id {
        seen.id
    }
}

impl Item for SharedFile {
    fn copied(&self) -> Result<SharedFile, Memory>
        ensures { IfOk result (λ held. held ≡ self.now) }
    {
        let twins = match &self.twins {
            Twins::Same(file) => Twins::Same(file.clone()?),
            Twins::Differ(both) => Twins::Differ(both.clone()?),
        };
        Ok(SharedFile { twins })
    }
}

// How a file is spelled hangs on how many members its volume has, so its list keeps nothing of it.
impl Spelled for SharedFile {
    ghost spell = { λ _. [] };

    fn put(&self, _out: &mut Vec<u8>) -> Result<(), Memory> {
        Ok(())
    }

    fn spelled_len(&self) -> usize {
        0
    }
}
