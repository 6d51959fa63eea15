ghost use Rattle.std.specs.Prelude.{IfNone, IfOk, IfSome, List, ℕ, string_bytes};
ghost use Rattle.ficus_ids.specs.Members.{IsMember};
ghost use Rattle.ficus_member.specs.Place.{NameMember};
ghost use Rattle.ficus_top.specs.Words.{texts};

use ficus_ids::Memory;
use ficus_words::{MemberMode, WordsFault, read_member_words};
use std::alloc::Global;

/// Where a member lies, or is to lie: in the folder of its number, 1 to 8, in the folder of its volume.
#[derive(Drop)]
pub struct Place {
    pub root: String,
    pub replica: u8,
}

/// Where the member lies, or is to lie, that the words name. `None` exactly where they are those of no member's mode.
pub fn place_of(alloc: Global, words: &Vec<String>) -> Result<Option<Place>, Memory>
    ensures found { IfOk result (λ place. IfSome place (λ place.
        NameMember (texts words.now.items) (string_bytes place.root) place.replica)) }
    ensures member { IfOk result (λ place. IfSome place (λ place. IsMember 8 place.replica)) }
    ensures none { IfOk result (λ place. IfNone place ((root : List ℕ) (replica : ℕ)
        → NameMember (texts words.now.items) root replica → ⊥)) }
{
    match read_member_words(alloc, words.as_slice()) {
        Ok(MemberMode::Init { replica, root, .. } | MemberMode::Run { replica, root }) => {
            let root = String::from_str(alloc, root.text())?;
            Ok(Some(Place { root, replica }))
        }
        Err(WordsFault::Usage) => Ok(None),
        Err(WordsFault::Memory) => Err(Memory),
    }
}
