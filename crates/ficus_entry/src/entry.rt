ghost use Rattle.std.specs.Prelude.{◌≡◌, ◌↔◌, Ok, IsTrue};

use ficus_ids::{Id, Marks, Memory, Name};

/// Whether an entry is removed, and who is known to know it. Removed entries are kept, as in Ficus (Guy
/// 1991), so that "removed here" differs from "not yet known here".
#[derive(Clone, Copy, PartialEq, Eq)]
pub enum State {
    /// The entry isn't removed.
    Live,
    /// The entry is removed.
    Dead {
        /// The replicas that are known to know of the removal.
        one: Marks,
        /// The replicas that are known to know that all know of it.
        two: Marks,
    },
}

/// An entry of a directory: a name for an object.
#[derive(Drop)]
pub struct Entry {
    /// The number of the update that made it.
    pub id: Id,
    /// The directory in which it lies.
    pub dir: Id,
    pub name: Name,
    /// The object that it names.
    pub target: Id,
    pub state: State,
}

impl Entry {
    /// Whether it isn't removed.
    pub fn is_live(&self) -> bool
        ensures { IsTrue result ↔ (self.now.state ≡ State.Live) }
    {
        matches!(self.state, State::Live)
    }

    /// A copy of the entry. `Memory` never comes.
    pub fn copy(&self) -> Result<Entry, Memory>
        ensures { result ≡ Ok self.now }
    {
        Ok(Entry {
            id: self.id,
            dir: self.dir,
            name: self.name.copy()?,
            target: self.target,
            state: self.state,
        })
    }
}
