ghost use Rattle.std.specs.Prelude.{◌≡◌, [], ◌∷◌, ◌++◌, codes, IfOk, OnOk};
ghost use Rattle.ficus_path.specs.Text.{quoted_text};
ghost use Rattle.ficus_script.specs.Answer.{answer_text_of, told_text_of, count_line, counted_lines, mark_line, name_line, tree_line};
ghost use Rattle.ficus_script.specs.Answer.{alike_text_of, clashes_text_of, collected_text_of, id_line, mails_text_of, orphan_line, part_text_of, swept_text_of, vector_text, version_line, why_text_of};

use crate::Answer;
use crate::conflicts::{append_clash_lines, append_file_lines, append_orphan_line};
use crate::marks::append_mark_line;
use ficus_commands::Told;
use ficus_entry::Entry;
use ficus_file::{Orphan, Version};
use ficus_ids::{Id, Listed, Members, Memory};
use ficus_names::{Clashes, Line, shown_text};
use ficus_path::append_text;
use ficus_vectors::Vector;
use std::alloc::Global;

/// The text of the answer. Each of its lines ends with byte 10.
pub fn answer_text(alloc: Global, answer: &Answer) -> Result<Vec<u8>, Memory>
    ensures { IfOk result (λ text. text.items ≡ answer_text_of answer.now) }
{
    match answer {
        Answer::Done => Ok(Vec::from_slice(alloc, b"ok\n")?),
        Answer::Made(id) => Ok(format!(in alloc; "ok {id}\n")?.into_bytes()),
        Answer::Mail(number) => Ok(format!(in alloc; "ok {number}\n")?.into_bytes()),
        Answer::Mails(first, last) => mails_text(alloc, *first, *last),
        Answer::Part { have, of } => part_text(alloc, *have, *of),
        Answer::Collected { entries, files } => collected_text(alloc, *entries, *files),
        Answer::Told(told) => told_text(alloc, told),
        Answer::Alike(alike) => alike_text(alloc, *alike),
        Answer::Swept {
            pulls,
            entries,
            files,
        } => swept_text(alloc, *pulls, *entries, *files),
        Answer::Why(lines) => why_text(alloc, lines.items()),
        Answer::Refused(refusal) => {
            let word = refusal.word();
            Ok(format!(in alloc; "no {word}\n")?.into_bytes())
        }
    }
}

fn mails_text(alloc: Global, first: u32, last: u32) -> Result<Vec<u8>, Memory>
    ensures { IfOk result (λ text. text.items ≡ mails_text_of first last) }
{
    Ok(format!(in alloc; "ok {first} to {last}\n")?.into_bytes())
}

fn part_text(alloc: Global, have: u32, of: u32) -> Result<Vec<u8>, Memory>
    ensures { IfOk result (λ text. text.items ≡ part_text_of have of) }
{
    Ok(format!(in alloc; "ok {have} of {of}\n")?.into_bytes())
}

fn collected_text(alloc: Global, entries: u32, files: u32) -> Result<Vec<u8>, Memory>
    ensures { IfOk result (λ text. text.items ≡ collected_text_of entries files) }
{
    Ok(format!(in alloc; "collected {entries} {files}\n")?.into_bytes())
}

fn alike_text(alloc: Global, alike: bool) -> Result<Vec<u8>, Memory>
    ensures { IfOk result (λ text. text.items ≡ alike_text_of alike) }
{
    let text = if alike {
        b"ok alike\n".as_slice()
    } else {
        b"ok apart\n".as_slice()
    };
    Ok(Vec::from_slice(alloc, text)?)
}

fn swept_text(alloc: Global, pulls: u32, entries: u32, files: u32) -> Result<Vec<u8>, Memory>
    ensures { IfOk result (λ text. text.items ≡ swept_text_of pulls entries files) }
{
    Ok(format!(in alloc; "swept {pulls} {entries} {files}\n")?.into_bytes())
}

fn why_text(alloc: Global, lines: &[Listed<u8>]) -> Result<Vec<u8>, Memory>
    ensures { IfOk result (λ text. text.items ≡ why_text_of lines.now) }
{
    let mut text = count_text(alloc, lines.len())?;
    for line in lines {
        text.extend_from_slice(line.items())?;
    }
    Ok(text)
}

fn told_text(alloc: Global, told: &Told) -> Result<Vec<u8>, Memory>
    ensures { IfOk result (λ text. text.items ≡ told_text_of told.now) }
{
    match told {
        Told::Text(text) => text_text(alloc, text.items()),
        Told::Names(lines) => names_text(alloc, lines.items()),
        Told::Tree(lines) => tree_text(alloc, lines.items()),
        Told::Versions { members, list } => versions_text(alloc, *members, list.items()),
        Told::Conflicts(clashes) => conflicts_text(alloc, clashes),
        Told::Orphans(orphans) => orphans_text(alloc, orphans.items()),
        Told::Detached(dirs) => detached_text(alloc, dirs.items()),
        Told::Marks(entries) => marks_text(alloc, entries.items()),
    }
}

fn text_text(alloc: Global, text: &[u8]) -> Result<Vec<u8>, Memory>
    ensures { IfOk result (λ answer. answer.items ≡ codes "ok " ++ quoted_text text.now ++ 10 ∷ []) }
{
    let mut answer = Vec::from_slice(alloc, b"ok ")?;
    append_text(&mut answer, text)?;
    answer.push(b'\n')?;
    Ok(answer)
}

fn names_text(alloc: Global, lines: &[Line]) -> Result<Vec<u8>, Memory>
    ensures { IfOk result (λ text. text.items ≡ counted_lines name_line lines.now) }
{
    let mut text = count_text(alloc, lines.len())?;
    for line in lines {
        append_name_line(alloc, &mut text, line)?;
    }
    Ok(text)
}

fn tree_text(alloc: Global, lines: &[Line]) -> Result<Vec<u8>, Memory>
    ensures { IfOk result (λ text. text.items ≡ counted_lines tree_line lines.now) }
{
    let mut text = count_text(alloc, lines.len())?;
    for line in lines {
        append_tree_line(alloc, &mut text, line)?;
    }
    Ok(text)
}

fn versions_text(alloc: Global, members: Members, list: &[Version]) -> Result<Vec<u8>, Memory>
    ensures { IfOk result (λ text. text.items ≡ counted_lines (version_line members) list.now) }
{
    let mut text = count_text(alloc, list.len())?;
    for version in list {
        append_version_line(alloc, &mut text, members, version)?;
    }
    Ok(text)
}

fn marks_text(alloc: Global, entries: &[Entry]) -> Result<Vec<u8>, Memory>
    ensures { IfOk result (λ text. text.items ≡ counted_lines mark_line entries.now) }
{
    let mut text = count_text(alloc, entries.len())?;
    for entry in entries {
        append_mark_line(alloc, &mut text, entry)?;
    }
    Ok(text)
}

fn conflicts_text(alloc: Global, clashes: &Clashes) -> Result<Vec<u8>, Memory>
    ensures { IfOk result (λ text. text.items ≡ clashes_text_of clashes.now) }
{
    let names = clashes.names.items();
    let files = clashes.files.items();
    let mut text = count_text(alloc, names.len() + files.len())?;
    append_clash_lines(alloc, &mut text, names)?;
    append_file_lines(alloc, &mut text, files)?;
    Ok(text)
}

fn orphans_text(alloc: Global, orphans: &[Orphan]) -> Result<Vec<u8>, Memory>
    ensures { IfOk result (λ text. text.items ≡ counted_lines orphan_line orphans.now) }
{
    let mut text = count_text(alloc, orphans.len())?;
    for orphan in orphans {
        append_orphan_line(alloc, &mut text, orphan)?;
    }
    Ok(text)
}

fn detached_text(alloc: Global, dirs: &[Id]) -> Result<Vec<u8>, Memory>
    ensures { IfOk result (λ text. text.items ≡ counted_lines id_line dirs.now) }
{
    let mut text = count_text(alloc, dirs.len())?;
    for dir in dirs {
        let dir = *dir;
        text.extend_from_slice(format!(in alloc; "{dir}\n")?.as_bytes())?;
    }
    Ok(text)
}

fn count_text(alloc: Global, count: usize) -> Result<Vec<u8>, Memory>
    ensures { IfOk result (λ text. text.items ≡ count_line count) }
{
    Ok(format!(in alloc; "ok {count}\n")?.into_bytes())
}

fn append_tree_line(alloc: Global, text: &mut Vec<u8>, line: &Line) -> Result<(), Memory>
    ensures { OnOk result (text.new.items ≡ text.old.items ++ tree_line line.now) }
{
    let dir = line.dir;
    text.extend_from_slice(format!(in alloc; "{dir} ")?.as_bytes())?;
    append_name_line(alloc, text, line)
}

fn append_name_line(alloc: Global, text: &mut Vec<u8>, line: &Line) -> Result<(), Memory>
    ensures { OnOk result (text.new.items ≡ text.old.items ++ name_line line.now) }
{
    text.extend_from_slice(&shown_text(alloc, &line.shown)?)?;
    let target = line.shown.target;
    let kind = line.kind.word();
    let conflict = if line.conflict { " conflict" } else { "" };
    text.extend_from_slice(format!(in alloc; " {target} {kind}{conflict}\n")?.as_bytes())?;
    Ok(())
}

fn append_version_line(
    alloc: Global,
    text: &mut Vec<u8>,
    members: Members,
    version: &Version,
) -> Result<(), Memory>
    ensures { OnOk result (text.new.items ≡ text.old.items ++ version_line members version.now) }
{
    append_vector(alloc, text, members, version.vector)?;
    text.push(b' ')?;
    append_text(text, version.bytes.items())?;
    text.push(b'\n')?;
    Ok(())
}

fn append_vector(
    alloc: Global,
    text: &mut Vec<u8>,
    members: Members,
    vector: Vector,
) -> Result<(), Memory>
    ensures { OnOk result (text.new.items ≡ text.old.items ++ vector_text members vector) }
{
    let first = vector.count(1);
    text.extend_from_slice(format!(in alloc; "[{first}")?.as_bytes())?;
    for index in 1..members.count() {
        let count = vector.count(index + 1);
        text.extend_from_slice(format!(in alloc; ",{count}")?.as_bytes())?;
    }
    text.push(b']')?;
    Ok(())
}
