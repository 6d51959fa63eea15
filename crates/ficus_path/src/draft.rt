ghost use Rattle.std.specs.Prelude.{◌≡◌, ◌↔◌, [], IsTrue, IfOk, IfSome, IfNone, OnSome};
ghost use Rattle.ficus_ids.specs.declared.id.Id.{Id};
ghost use Rattle.ficus_path.specs.declared.path.Path.{Path};
ghost use Rattle.ficus_path.specs.Spelling.{path_text};
ghost use Rattle.ficus_path.specs.Path.{IsEntry, IsNew, IsPath, at_orphan};

use crate::path::{Base, PART_LIMIT, Path};
use crate::reading::read_parted;
use crate::room::Room;
use arrayvec::ArrayVec;
use ficus_ids::{Id, Memory};
use std::alloc::Global;
use std::marker::Model;

/// A path that lies in the value itself, so that it is read without memory. It is some kilobytes large, and may be read
/// into again and again. Contracts see it as the path.
#[derive(Drop)]
pub struct PathDraft {
    base: Base,
    parts: ArrayVec<Room, PART_LIMIT>,
}

impl Model for PathDraft {
    ghost use Rattle.ficus_path.specs.declared.path.Path.{Path};

    ghost Value = { Path };

    ghost view = { λ d. record { base = d.base; parts = d.parts.items } };
}

impl PathDraft {
    /// The root.
    pub fn new() -> PathDraft
        ensures { result ≡ record { base = Base.Root; parts = [] } }
    {
        PathDraft {
            base: Base::Root,
            parts: ArrayVec::new(),
        }
    }

    /// Becomes the path that the bytes spell, in time linear in their number. `None` comes exactly where they spell
    /// none; what the draft is then isn't said.
    pub fn read(&mut self, bytes: &[u8]) -> Option<()>
        ensures path { OnSome result (IsPath self.new) }
        ensures found { OnSome result (bytes.now ≡ path_text self.new) }
        ensures none { IfNone result ((path : Path) → IsPath path → bytes.now ≡ path_text path → ⊥) }
    {
        self.base = read_parted(bytes, &mut self.parts)?;
        Some(())
    }

    /// Whether it names an entry: whether it has a part.
    pub fn is_entry(&self) -> bool
        ensures { IsTrue result ↔ IsEntry self.now }
    {
        !self.parts.is_empty()
    }

    /// Whether it may name an entry that is yet to be made: whether it has a part, and the last one has no target.
    pub fn is_new(&self) -> bool
        ensures { IsTrue result ↔ IsNew self.now }
    {
        self.parts
            .as_slice()
            .last()
            .is_some_and(|room| room.is_without_target())
    }

    /// The orphan at which it begins, if it has no part.
    pub fn orphan(&self) -> Option<Id>
        ensures found { IfSome result (λ orphan. self.now ≡ at_orphan orphan) }
        ensures none { IfNone result ((orphan : Id) → self.now ≡ at_orphan orphan → ⊥) }
    {
        match (self.base, self.parts.as_slice()) {
            (Base::Orphan(orphan), []) => Some(orphan),
            _ => None,
        }
    }

    /// The path in memory.
    pub fn path(&self, alloc: Global) -> Result<Path, Memory>
        requires { IsPath self.now }
        ensures { IfOk result (λ path. path ≡ self.now) }
    {
        let mut parts = Vec::with_capacity(alloc, self.parts.len())?;
        for room in self.parts.as_slice() {
            parts.push(room.part()?)?;
        }
        Ok(Path::through(self.base, parts))
    }
}
