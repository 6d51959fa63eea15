ghost use Rattle.std.specs.Prelude.{◌≡◌, ℕ, List, Some, codes, IfSome, IfNone, option_map};
ghost use Rattle.ficus_words.specs.Given.{given_texts, IsTagOrNone};
ghost use Rattle.ficus_words.specs.MemberMode.{IsMemberReadingOf};

use crate::given::Given;
use crate::mode::{has_no_script, read_folder_alone, read_size};
use crate::numbers::read_replica;
use crate::root::{Root, read_root};
use crate::{Size, WordsFault};
use ficus_tag::Tag;
use std::alloc::Global;

/// What the program is asked to do for one member of a volume, on a machine of its own.
#[derive(Drop)]
pub enum MemberMode {
    /// `init --members N --replica R [--tag HEX] [--ids I] [--bytes B] ROOT`: to make what member R, 1 to N, has of a
    /// fresh volume, in a folder. The tag, 32 hexadecimal digits, tells the volume's messages from those of others; it
    /// is sixteen zeros where the words don't give it.
    Init {
        size: Size,
        replica: u8,
        tag: Tag,
        root: Root,
    },
    /// `member --replica R ROOT`: to run a script of member R, 1 to 8, on what the folder has of it.
    Run {
        replica: u8,
        root: Root,
    },
}

/// The mode of a member that the texts ask for. `Usage` comes exactly where they ask for none.
pub(crate) fn read_member_mode(alloc: Global, given: &Given<'_>) -> Result<MemberMode, WordsFault>
    ensures { IsMemberReadingOf (given_texts given.now) result }
{
    match given.mode {
        Some(mode) if mode == "init" => read_init(alloc, given),
        Some(mode) if mode == "member" => read_run(alloc, given),
        _ => Err(WordsFault::Usage),
    }
}

fn read_init(alloc: Global, given: &Given<'_>) -> Result<MemberMode, WordsFault>
    requires { (given_texts given.now).mode ≡ Some (codes "init") }
    ensures { IsMemberReadingOf (given_texts given.now) result }
{
    if given.volumes.is_some() || !has_no_script(given) {
        return Err(WordsFault::Usage);
    }
    let size = read_size(given).ok_or(WordsFault::Usage)?;
    let replica = read_replica(given.replica, size.members.count()).ok_or(WordsFault::Usage)?;
    let tag = read_tag(given.tag).ok_or(WordsFault::Usage)?;
    let root = read_root(alloc, given.root)?;
    Ok(MemberMode::Init {
        size,
        replica,
        tag,
        root,
    })
}

fn read_run(alloc: Global, given: &Given<'_>) -> Result<MemberMode, WordsFault>
    requires { (given_texts given.now).mode ≡ Some (codes "member") }
    ensures { IsMemberReadingOf (given_texts given.now) result }
{
    if given.tag.is_some() {
        return Err(WordsFault::Usage);
    }
    let replica = read_replica(given.replica, 8).ok_or(WordsFault::Usage)?;
    let root = read_folder_alone(alloc, given)?;
    Ok(MemberMode::Run { replica, root })
}

// The tag that the text spells, or sixteen zeros where there is no text.
fn read_tag(text: Option<&str>) -> Option<Tag>
    ensures found { IfSome result (IsTagOrNone (option_map (λ text. text.now) text.entry)) }
    ensures none { IfNone result
        ((tag : List ℕ) → IsTagOrNone (option_map (λ text. text.now) text.entry) tag → ⊥) }
{
    match text {
        Some(text) => Tag::read(text.as_bytes()),
        None => Some(Tag::none()),
    }
}
