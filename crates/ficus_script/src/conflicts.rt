ghost use Rattle.std.specs.Prelude.{◌≡◌, ◌++◌, OnOk};
ghost use Rattle.std.specs.List.{flat_map};
ghost use Rattle.ficus_script.specs.Answer.{clash_line, file_line, orphan_line};

use ficus_file::Orphan;
use ficus_ids::{Id, Memory};
use ficus_names::NameClash;
use ficus_path::write_name;
use std::alloc::Global;

/// Adds the lines of names that lead to several objects.
pub(crate) fn append_clash_lines(
    alloc: Global,
    text: &mut Vec<u8>,
    clashes: &[NameClash],
) -> Result<(), Memory>
    ensures { OnOk result (text.new.items ≡ text.old.items ++ flat_map clash_line clashes.now) }
{
    for clash in clashes {
        append_clash_line(alloc, text, clash)?;
    }
    Ok(())
}

fn append_clash_line(alloc: Global, text: &mut Vec<u8>, clash: &NameClash) -> Result<(), Memory>
    ensures { OnOk result (text.new.items ≡ text.old.items ++ clash_line clash.now) }
{
    let dir = clash.dir;
    text.extend_from_slice(format!(in alloc; "name {dir} ")?.as_bytes())?;
    text.extend_from_slice(&write_name(alloc, &clash.name)?)?;
    text.push(b'\n')?;
    Ok(())
}

/// Adds the lines of files in conflict.
pub(crate) fn append_file_lines(
    alloc: Global,
    text: &mut Vec<u8>,
    files: &[Id],
) -> Result<(), Memory>
    ensures { OnOk result (text.new.items ≡ text.old.items ++ flat_map file_line files.now) }
{
    for file in files {
        append_file_line(alloc, text, *file)?;
    }
    Ok(())
}

fn append_file_line(alloc: Global, text: &mut Vec<u8>, file: Id) -> Result<(), Memory>
    ensures { OnOk result (text.new.items ≡ text.old.items ++ file_line file) }
{
    text.extend_from_slice(format!(in alloc; "file {file}\n")?.as_bytes())?;
    Ok(())
}

/// Adds the line of an orphan.
pub(crate) fn append_orphan_line(
    alloc: Global,
    text: &mut Vec<u8>,
    orphan: &Orphan,
) -> Result<(), Memory>
    ensures { OnOk result (text.new.items ≡ text.old.items ++ orphan_line orphan.now) }
{
    let id = orphan.id;
    let kind = orphan.kind.word();
    let conflict = if orphan.conflict { " conflict" } else { "" };
    text.extend_from_slice(format!(in alloc; "~{id} {kind}{conflict}\n")?.as_bytes())?;
    Ok(())
}
