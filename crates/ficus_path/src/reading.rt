ghost use Rattle.std.specs.Prelude.{◌≡◌, ◌≤◌, List, [], ◌∷◌, All, length, IfOk, IfSome, IfNone, IsErrOf, OnSome};
ghost use Rattle.std.specs.List.{flat_map};
ghost use Rattle.ficus_path.specs.declared.path.Part.{Part};
ghost use Rattle.ficus_path.specs.declared.path.Path.{Path};
ghost use Rattle.ficus_path.specs.Path.{IsPart, IsPath, path_from};
ghost use Rattle.ficus_path.specs.Spelling.{part_text, path_text, IsEndOr};

use crate::cut::cut_before;
use crate::draft::PathDraft;
use crate::id::read_id;
use crate::part::read_component;
use crate::path::{Base, PART_LIMIT, Path, PathFault};
use crate::room::Room;
use arrayvec::ArrayVec;
use std::alloc::Global;

/// The path that the bytes spell, in time linear in their number. `NotPath` comes exactly where they spell none, and
/// `Memory` only where they spell one and memory was refused.
pub fn read_path(alloc: Global, bytes: &[u8]) -> Result<Path, PathFault>
    ensures path { IfOk result IsPath }
    ensures spelling { IfOk result (λ path. bytes.now ≡ path_text path) }
    ensures not_path { IsErrOf result PathFault.NotPath →
        (path : Path) → IsPath path → bytes.now ≡ path_text path → ⊥ }
    ensures memory { IsErrOf result PathFault.Memory → (path : Path) × IsPath path × (bytes.now ≡ path_text path) }
{
    let mut draft = PathDraft::new();
    draft.read(bytes).ok_or(PathFault::NotPath)?;
    Ok(draft.path(alloc)?)
}

/// Where the path begins that the bytes spell; its parts are put in place of those that are there. `None` comes exactly
/// where they spell none.
pub(crate) fn read_parted(bytes: &[u8], parts: &mut ArrayVec<Room, PART_LIMIT>) -> Option<Base>
    ensures path { IfSome result (λ base. IsPath (path_from base parts.new.items)) }
    ensures found { IfSome result (λ base. bytes.now ≡ path_text (path_from base parts.new.items)) }
    ensures none { IfNone result ((path : Path) → IsPath path → bytes.now ≡ path_text path → ⊥) }
{
    parts.clear();
    if let [b'~', behind @ ..] = bytes {
        read_at_orphan(behind, parts)
    } else {
        read_at_root(bytes, parts)
    }
}

// What `read_parted` answers of a path that begins at the root.
fn read_at_root(bytes: &[u8], parts: &mut ArrayVec<Room, PART_LIMIT>) -> Option<Base>
    requires { parts.old.items ≡ [] }
    ensures path { IfSome result (λ base. IsPath (path_from base parts.new.items)) }
    ensures found { IfSome result (λ base. bytes.now ≡ path_text (path_from base parts.new.items)) }
    ensures none { IfNone result ((path : Path) →
        IsPath path → path.base ≡ Base.Root → bytes.now ≡ path_text path → ⊥) }
{
    match bytes {
        [b'/'] => {}
        [b'/', ..] => read_parts(bytes, parts)?,
        _ => return None,
    }
    Some(Base::Root)
}

// What `read_parted` answers of a path that begins at an orphan, behind its tilde.
fn read_at_orphan(behind: &[u8], parts: &mut ArrayVec<Room, PART_LIMIT>) -> Option<Base>
    requires { parts.old.items ≡ [] }
    ensures path { IfSome result (λ base. IsPath (path_from base parts.new.items)) }
    ensures found { IfSome result (λ base. 126 ∷ behind.now ≡ path_text (path_from base parts.new.items)) }
    ensures none { IfNone result ((path : Path) → IsPath path → 126 ∷ behind.now ≡ path_text path → ⊥) }
{
    let (id, rest) = cut_before(behind, b'/');
    let orphan = read_id(id)?;
    read_parts(rest, parts)?;
    Some(Base::Orphan(orphan))
}

fn read_parts(text: &[u8], parts: &mut ArrayVec<Room, PART_LIMIT>) -> Option<()>
    requires end { IsEndOr 47 text.now }
    requires empty { parts.old.items ≡ [] }
    ensures within_limit { OnSome result (length parts.new.items ≤ PART_LIMIT) }
    ensures each { OnSome result (All IsPart parts.new.items) }
    ensures found { OnSome result (text.now ≡ flat_map part_text parts.new.items) }
    ensures none { IfNone result ((parts : List Part) →
        length parts ≤ PART_LIMIT → All IsPart parts → text.now ≡ flat_map part_text parts → ⊥) }
{
    let mut rest = text;
    while let [_, after @ ..] = rest {
        if parts.is_full() {
            return None;
        }
        let (component, others) = cut_before(after, b'/');
        let part = read_component(component)?;
        parts.push(Room::of(part));
        rest = others;
    }
    Some(())
}

/// The law that no two paths have one spelling. It does nothing when it runs.
pub fn one_path()
    ensures { (path other : Path) → IsPath path → IsPath other → path_text path ≡ path_text other → path ≡ other }
{}
