ghost use Rattle.std.specs.Prelude.{◌≡◌, ◌≤◌, ◌++◌, OnOk};
ghost use Rattle.std.specs.List.{flat_map, range_with_len};
ghost use Rattle.ficus_script.specs.Answer.{digit_in, known_text, mark_line, place_text, set_text};

use ficus_entry::{Entry, State};
use ficus_ids::{Marks, Memory};
use ficus_path::write_name;
use std::alloc::Global;

/// Adds the line of a removed entry.
pub(crate) fn append_mark_line(
    alloc: Global,
    text: &mut Vec<u8>,
    entry: &Entry,
) -> Result<(), Memory>
    ensures { OnOk result (text.new.items ≡ text.old.items ++ mark_line entry.now) }
{
    append_place(alloc, text, entry)?;
    append_known(alloc, text, entry.state)?;
    text.push(b'\n')?;
    Ok(())
}

// Adds the identifier, the directory, the name and the target of the entry.
fn append_place(alloc: Global, text: &mut Vec<u8>, entry: &Entry) -> Result<(), Memory>
    ensures { OnOk result (text.new.items ≡ text.old.items ++ place_text entry.now) }
{
    let id = entry.id;
    let dir = entry.dir;
    text.extend_from_slice(format!(in alloc; "{id} {dir} ")?.as_bytes())?;
    text.extend_from_slice(&write_name(alloc, &entry.name)?)?;
    let target = entry.target;
    text.extend_from_slice(format!(in alloc; " {target}")?.as_bytes())?;
    Ok(())
}

// Adds who is known to know of a removal.
fn append_known(alloc: Global, text: &mut Vec<u8>, state: State) -> Result<(), Memory>
    ensures { OnOk result (text.new.items ≡ text.old.items ++ known_text state) }
{
    match state {
        State::Live => Ok(()),
        State::Dead { one, two } => {
            text.extend_from_slice(b" one=")?;
            append_set(alloc, text, one)?;
            text.extend_from_slice(b" two=")?;
            append_set(alloc, text, two)
        }
    }
}

// Adds the digits of the replicas in the set, or `-` for nobody.
fn append_set(alloc: Global, text: &mut Vec<u8>, set: Marks) -> Result<(), Memory>
    ensures { OnOk result (text.new.items ≡ text.old.items ++ set_text set) }
{
    let before = text.len();
    append_digits(alloc, text, set)?;
    if text.len() == before {
        text.push(b'-')?;
    }
    Ok(())
}

fn append_digits(alloc: Global, text: &mut Vec<u8>, set: Marks) -> Result<(), Memory>
    ensures { OnOk result (text.new.items ≡ text.old.items ++ flat_map (digit_in set) (range_with_len 1 8)) }
{
    for replica in 1..9u8 {
        append_digit(alloc, text, set, replica)?;
    }
    Ok(())
}

// Adds the digit of the replica if it is in the set.
fn append_digit(alloc: Global, text: &mut Vec<u8>, set: Marks, replica: u8) -> Result<(), Memory>
    requires at_least { 1 ≤ replica }
    requires at_most { replica ≤ 8 }
    ensures { OnOk result (text.new.items ≡ text.old.items ++ digit_in set replica) }
{
    if set.has(replica) {
        text.extend_from_slice(format!(in alloc; "{replica}")?.as_bytes())?;
    }
    Ok(())
}
