ghost use Rattle.std.specs.Prelude.{IfOk};
ghost use Rattle.ficus_deciding.specs.Chosen.{AreIdsOf};

use ficus_file::{FileReplica, FilesInOrder};
use ficus_ids::{Id, Memory};
use std::alloc::Global;

/// Which files are chosen.
pub(crate) trait Choice {
    ghost use Rattle.std.specs.Prelude.{◌↔◌, IsTrue};
    ghost use Rattle.ficus_file.specs.declared.file.FileReplica.{FileReplica as FileValue};

    ghost Chooses: { Self → FileValue → Type 0 };

    fn chooses(&self, file: &FileReplica) -> bool
        ensures { IsTrue result ↔ Chooses self.now file.now };
}

/// The identifiers of the chosen files, rising.
pub(crate) fn chosen<C: Choice>(
    alloc: Global,
    files: &FilesInOrder<'_>,
    choice: &C,
) -> Result<Vec<Id>, Memory>
    ensures { IfOk result (λ ids. AreIdsOf (C.Chooses choice.now) files.now ids.items) }
{
    let mut ids = Vec::new(alloc);
    for index in 0..files.len() {
        let file = files.at(index);
        if choice.chooses(file) {
            ids.push(file.id)?;
        }
    }
    Ok(ids)
}
