ghost use Rattle.std.specs.Prelude.{◌≡◌, ◌++◌, length, OnErr, OnOk};
ghost use Rattle.ficus_formats.specs.Format.{Keeps, byte, id as id_format};
ghost use Rattle.ficus_entry.specs.Spelled.{state_bytes, entry_bytes};

use crate::{Entry, State};
use ficus_formats::put_bytes;
use ficus_ids::{Id, Memory};

impl Entry {
    /// Appends its bytes in tables, which are the same in each volume. After `Memory` part of them may stand there.
    pub fn put(&self, out: &mut Vec<u8>) -> Result<(), Memory>
        ensures put { OnOk result (out.new.items ≡ out.old.items ++ entry_bytes self.now) }
        ensures kept { OnErr result (Keeps out.old.items out.new.items) }
    {
        put_bytes(out, &entry_head(self))?;
        put_bytes(out, self.name.bytes())?;
        put_tail(out, self.target, self.state)
    }

    /// How many bytes these are.
    pub fn spelled_len(&self) -> usize
        ensures { result ≡ length (entry_bytes self.now) }
    {
        let behind = match self.state {
            State::Live => 6,
            State::Dead { .. } => 8,
        };
        11 + self.name.bytes().len() + behind
    }
}

// What stands before the name's bytes: the identifier, the directory, and how long the name is.
fn entry_head(entry: &Entry) -> [u8; 11]
    ensures { result
        ≡ id_format.spell entry.now.id ++ (id_format.spell entry.now.dir ++ byte.spell (length entry.now.name)) }
{
    let [id_1, id_2, id_3, id_4] = entry.id.number.to_be_bytes();
    let [dir_1, dir_2, dir_3, dir_4] = entry.dir.number.to_be_bytes();
    let length = entry.name.bytes().len() as u8;
    [
        entry.id.replica,
        id_1,
        id_2,
        id_3,
        id_4,
        entry.dir.replica,
        dir_1,
        dir_2,
        dir_3,
        dir_4,
        length,
    ]
}

// Appends what stands behind the name.
fn put_tail(out: &mut Vec<u8>, target: Id, state: State) -> Result<(), Memory>
    ensures put { OnOk result (out.new.items ≡ out.old.items ++ (id_format.spell target ++ state_bytes state)) }
    ensures kept { OnErr result (Keeps out.old.items out.new.items) }
{
    let [first, second, third, fourth] = target.number.to_be_bytes();
    match state {
        State::Live => put_bytes(out, &[target.replica, first, second, third, fourth, 0]),
        State::Dead { one, two } => {
            let (one, two) = (one.bits(), two.bits());
            put_bytes(
                out,
                &[target.replica, first, second, third, fourth, 1, one, two],
            )
        }
    }
}
