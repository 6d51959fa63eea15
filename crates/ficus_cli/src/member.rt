ghost use Rattle.std.specs.Prelude.{◌≡◌, IfOk, codes, length, string_bytes};
ghost use Rattle.ficus_cli.specs.Member.{IsKeptAt, file_at};
ghost use Rattle.ficus_file_disk.specs.Place.{places_in, places_of};
ghost use Rattle.ficus_ids.specs.Members.{IsMember};
ghost use Rattle.ficus_member.specs.Program.{RunsMember};
ghost use Rattle.ficus_member.specs.Seen.{seen_of};
ghost use Rattle.ficus_top.specs.Words.{texts};

use ficus_disk::{Disk, Pair};
use ficus_file_disk::FileDisk;
use ficus_folder_mailbox::FolderMailbox;
use ficus_here_or_away::{HereOrAway, pairs_for};
use ficus_ids::Memory;
use ficus_mailbox::Mailbox;
use ficus_member::{Beside, Place, member};
use ficus_outside::{Sink, Source, StdSink, StdSource};
use ficus_top::Status;
use std::alloc::Global;
use std::io::{Input, Print};
use std::rt::Files;

/// What keeps a member, and its mailbox: its own disks, with those that stand in for the others', what lies beside
/// them, and the folders of its messages.
#[derive(Drop)]
pub(crate) struct Kept<F: Files + Copy + Clone + Drop> {
    disks: Vec<Pair<HereOrAway<FileDisk<F>>>>,
    beside: Beside<FileDisk<F>>,
    mailbox: FolderMailbox<F>,
}

/// What keeps the member that lies, or is to lie, at this place. No file is touched.
pub(crate) fn kept_at<F: Files + Copy + Clone + Drop>(
    rt: F,
    alloc: Global,
    place: &Place,
) -> Result<Kept<F>, Memory>
    requires { IsMember 8 place.now.replica }
    ensures { IfOk result (IsKeptAt (string_bytes place.now.root) place.now.replica) }
{
    let own = own_disks(rt, alloc, place)?;
    let disks = pairs_for(alloc, own, place.replica)?;
    let beside = beside_of(rt, alloc, place)?;
    let mailbox = FolderMailbox::new(rt, alloc, place.root.as_str(), place.replica)?;
    Ok(Kept {
        disks,
        beside,
        mailbox,
    })
}

/// Runs the program for a member over the standard streams of a runtime and over what keeps the member, and says how it
/// ended. The streams, the files and the folders count their faults, and tell nothing of what they give and take.
pub(crate) fn run_member<F: Files + Copy + Clone + Drop, R: Input + Print + Clone + Drop>(
    alloc: Global,
    words: &Vec<String>,
    input: &mut StdSource<R>,
    output: &mut StdSink<R>,
    kept: &mut Kept<F>,
) -> Status
    requires pairs { length kept.old.disks.items ≡ 8 }
    ensures { RunsMember (texts words.now.items) (seen_of ⟦<StdSource<R> as Source>⟧ input.old input.new
        ⟦<StdSink<R> as Sink>⟧ output.old output.new ⟦<HereOrAway<FileDisk<F>> as Disk>⟧ kept.old.disks kept.new.disks
        ⟦<FileDisk<F> as Disk>⟧ kept.old.beside kept.new.beside ⟦<FolderMailbox<F> as Mailbox>⟧ kept.old.mailbox
        kept.new.mailbox) result }
{
    member(
        alloc,
        words,
        input,
        output,
        &mut kept.disks,
        &mut kept.beside,
        &mut kept.mailbox,
    )
}

// The member's own disks.
fn own_disks<F: Files + Copy + Clone + Drop>(
    rt: F,
    alloc: Global,
    place: &Place,
) -> Result<Pair<FileDisk<F>>, Memory>
    requires { IsMember 8 place.now.replica }
    ensures { IfOk result (λ own. places_of own ≡ places_in (string_bytes place.now.root) place.now.replica) }
{
    Ok(Pair {
        a: file_of(rt, alloc, place, "a.img")?,
        b: file_of(rt, alloc, place, "b.img")?,
    })
}

// What lies beside them.
fn beside_of<F: Files + Copy + Clone + Drop>(
    rt: F,
    alloc: Global,
    place: &Place,
) -> Result<Beside<FileDisk<F>>, Memory>
    ensures slot_a { IfOk result (λ beside. beside.slots.a.path
        ≡ file_at (string_bytes place.now.root) place.now.replica (codes "ask-a.img")) }
    ensures slot_b { IfOk result (λ beside. beside.slots.b.path
        ≡ file_at (string_bytes place.now.root) place.now.replica (codes "ask-b.img")) }
    ensures volume { IfOk result (λ beside. beside.volume.path
        ≡ file_at (string_bytes place.now.root) place.now.replica (codes "volume")) }
{
    Ok(Beside {
        slots: Pair {
            a: file_of(rt, alloc, place, "ask-a.img")?,
            b: file_of(rt, alloc, place, "ask-b.img")?,
        },
        volume: file_of(rt, alloc, place, "volume")?,
    })
}

// The file of this name in the member's folder.
fn file_of<F: Files + Copy + Clone + Drop>(
    rt: F,
    alloc: Global,
    place: &Place,
    name: &str,
) -> Result<FileDisk<F>, Memory>
    ensures { IfOk result (λ file. file.path
        ≡ file_at (string_bytes place.now.root) place.now.replica name.now) }
{
    let root = place.root.as_str();
    let replica = place.replica;
    let path = format!(in alloc; "{root}/{replica}/{name}")?;
    Ok(FileDisk::new(rt, path))
}
