ghost use Rattle.std.specs.Prelude.{◌≡◌, ◌↔◌, ℕ, List, Some, codes, ok_or, IsTrue, IsErrOf, IfOk, IfSome, IfNone};
ghost use Rattle.ficus_words.specs.Given.{given_texts};
ghost use Rattle.ficus_words.specs.Mode.{HasFolderAlone, HasNoLimit, HasNoMember, HasNoScript, HasNoSize, IsReadingOf, IsSize};
ghost use Rattle.ficus_words.specs.declared.fault.WordsFault.TheVariants.{Usage};
ghost use Rattle.ficus_words.specs.declared.mode.Size.{Size as SizeValue};

use crate::WordsFault;
use crate::given::Given;
use crate::numbers::{number_in, number_or_most, read_members};
use crate::root::{Root, read_root};
use ficus_ids::Members;
use std::alloc::Global;

/// How large a volume is: its members, how many updates each may make over its life, 1 to 100,000, and how many bytes
/// each may write, at most 4,194,304. The limits are the greatest ones where the words don't give them.
#[derive(Clone, Copy, PartialEq, Eq)]
pub struct Size {
    pub members: Members,
    pub ids: u32,
    pub bytes: u32,
}

/// What the program is asked to do.
#[derive(Drop)]
pub enum Mode {
    /// `init --members N [--ids I] [--bytes B] ROOT`: to make a fresh volume in a folder.
    Init {
        size: Size,
        root: Root,
    },
    /// `run ROOT`: to run a script on the volume in a folder.
    Run {
        root: Root,
    },
    /// `check ROOT`: to judge what the files of each replica in a folder hold.
    Check {
        root: Root,
    },
    /// `replay --members N [--ids I] [--bytes B]`: to run a script on a fresh volume in memory.
    Replay {
        size: Size,
    },
    /// `volumes --members N --volumes V [--ids I] [--bytes B]`: to run a script on 1 to 4 fresh volumes of one size in
    /// memory, which are joined where names lead from one to another.
    Volumes {
        size: Size,
        count: u8,
    },
    /// `gen --members N --seed S --steps T`: to run a script that follows from a seed, below 2^31, over at most 5,000
    /// steps, and to tell what it came to.
    Gen {
        members: Members,
        seed: u32,
        steps: u32,
    },
}

/// The mode that the texts ask for. `Usage` comes exactly where they ask for none.
pub(crate) fn read_mode(alloc: Global, given: &Given<'_>) -> Result<Mode, WordsFault>
    ensures { IsReadingOf (given_texts given.now) result }
{
    if !has_no_member(given) {
        return Err(WordsFault::Usage);
    }
    match given.mode {
        Some(mode) if mode == "init" => read_init(alloc, given),
        Some(mode) if mode == "run" => read_run(alloc, given),
        Some(mode) if mode == "check" => read_check(alloc, given),
        Some(mode) if mode == "replay" => read_replay(given).ok_or(WordsFault::Usage),
        Some(mode) if mode == "volumes" => read_volumes(given).ok_or(WordsFault::Usage),
        Some(mode) if mode == "gen" => read_gen(given).ok_or(WordsFault::Usage),
        _ => Err(WordsFault::Usage),
    }
}

fn read_init(alloc: Global, given: &Given<'_>) -> Result<Mode, WordsFault>
    requires mode { (given_texts given.now).mode ≡ Some (codes "init") }
    requires no_member { HasNoMember (given_texts given.now) }
    ensures { IsReadingOf (given_texts given.now) result }
{
    if given.volumes.is_some() || !has_no_script(given) {
        return Err(WordsFault::Usage);
    }
    let Some(size) = read_size(given) else {
        return Err(WordsFault::Usage);
    };
    let root = read_root(alloc, given.root)?;
    Ok(Mode::Init { size, root })
}

fn read_run(alloc: Global, given: &Given<'_>) -> Result<Mode, WordsFault>
    requires mode { (given_texts given.now).mode ≡ Some (codes "run") }
    requires no_member { HasNoMember (given_texts given.now) }
    ensures { IsReadingOf (given_texts given.now) result }
{
    let root = read_folder_alone(alloc, given)?;
    Ok(Mode::Run { root })
}

fn read_check(alloc: Global, given: &Given<'_>) -> Result<Mode, WordsFault>
    requires mode { (given_texts given.now).mode ≡ Some (codes "check") }
    requires no_member { HasNoMember (given_texts given.now) }
    ensures { IsReadingOf (given_texts given.now) result }
{
    let root = read_folder_alone(alloc, given)?;
    Ok(Mode::Check { root })
}

/// The folder, where nothing is given of how large a volume is and to make a script from. `Usage` comes exactly where
/// there is none, or more is given.
pub(crate) fn read_folder_alone(alloc: Global, given: &Given<'_>) -> Result<Root, WordsFault>
    ensures found { IfOk result (HasFolderAlone (given_texts given.now)) }
    ensures usage { IsErrOf result WordsFault.Usage → (root : List ℕ)
        → HasFolderAlone (given_texts given.now) root → ⊥ }
{
    if !has_no_size(given) || !has_no_script(given) {
        return Err(WordsFault::Usage);
    }
    read_root(alloc, given.root)
}

fn read_replay(given: &Given<'_>) -> Option<Mode>
    requires mode { (given_texts given.now).mode ≡ Some (codes "replay") }
    requires no_member { HasNoMember (given_texts given.now) }
    ensures { IsReadingOf (given_texts given.now) (ok_or result Usage) }
{
    if given.root.is_some() || given.volumes.is_some() || !has_no_script(given) {
        return None;
    }
    let size = read_size(given)?;
    Some(Mode::Replay { size })
}

fn read_volumes(given: &Given<'_>) -> Option<Mode>
    requires mode { (given_texts given.now).mode ≡ Some (codes "volumes") }
    requires no_member { HasNoMember (given_texts given.now) }
    ensures { IsReadingOf (given_texts given.now) (ok_or result Usage) }
{
    if given.root.is_some() || !has_no_script(given) {
        return None;
    }
    let size = read_size(given)?;
    let count = number_in(given.volumes, 1, 4)?;
    Some(Mode::Volumes {
        size,
        count: count as u8,
    })
}

fn read_gen(given: &Given<'_>) -> Option<Mode>
    requires mode { (given_texts given.now).mode ≡ Some (codes "gen") }
    requires no_member { HasNoMember (given_texts given.now) }
    ensures { IsReadingOf (given_texts given.now) (ok_or result Usage) }
{
    if given.root.is_some() || given.volumes.is_some() || !has_no_limit(given) {
        return None;
    }
    let members = read_members(given.members)?;
    let seed = number_in(given.seed, 0, 2_147_483_647)?;
    let steps = number_in(given.steps, 0, 5000)?;
    Some(Mode::Gen {
        members,
        seed,
        steps,
    })
}

pub(crate) fn read_size(given: &Given<'_>) -> Option<Size>
    ensures found { IfSome result (IsSize (given_texts given.now)) }
    ensures none { IfNone result ((size : SizeValue) → IsSize (given_texts given.now) size → ⊥) }
{
    let members = read_members(given.members)?;
    let ids = number_or_most(given.ids, 1, 100_000)?;
    let bytes = number_or_most(given.bytes, 0, 4_194_304)?;
    Some(Size {
        members,
        ids,
        bytes,
    })
}

fn has_no_limit(given: &Given<'_>) -> bool
    ensures { IsTrue result ↔ HasNoLimit (given_texts given.now) }
{
    given.ids.is_none() && given.bytes.is_none()
}

fn has_no_size(given: &Given<'_>) -> bool
    ensures { IsTrue result ↔ HasNoSize (given_texts given.now) }
{
    given.members.is_none() && given.volumes.is_none() && has_no_limit(given)
}

pub(crate) fn has_no_script(given: &Given<'_>) -> bool
    ensures { IsTrue result ↔ HasNoScript (given_texts given.now) }
{
    given.seed.is_none() && given.steps.is_none()
}

fn has_no_member(given: &Given<'_>) -> bool
    ensures { IsTrue result ↔ HasNoMember (given_texts given.now) }
{
    given.replica.is_none() && given.tag.is_none()
}
