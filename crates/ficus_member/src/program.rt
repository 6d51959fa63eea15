ghost use Rattle.std.specs.Prelude.{◌≡◌, length, IsErrOf};
ghost use Rattle.ficus_member.specs.Program.{Does, FitsMember, RunsMember, as_ended};
ghost use Rattle.ficus_member.specs.Seen.{seen_of};
ghost use Rattle.ficus_top.specs.Words.{texts};
ghost use Rattle.ficus_words.specs.declared.fault.WordsFault.{WordsFault as WordsFaultValue};

use crate::Beside;
use crate::making::init;
use crate::running::run;
use ficus_disk::{Disk, Pair};
use ficus_mailbox::Mailbox;
use ficus_opening::WorldFault;
use ficus_outside::{Sink, Source};
use ficus_top::{Fault, Status};
use ficus_words::{MemberMode, read_member_words};
use std::alloc::Global;

/// Runs the program for a member on a machine of its own: reads the words, and does what they ask for.
///
/// There are eight pairs of disks, of which the one with the member's number is its own; the others stand in for
/// members that are elsewhere, and hold nothing. `init` makes the member on its disks, and what lies beside them.
/// `member` reads the whole script from the source, opens the member, and then answers each line on the sink.
///
/// The codes are those of `ficus`, and come in the same order: 1, the words aren't those of a member's mode; 4, the
/// source failed; 8, it gave more bytes than a script has; 2, a line may not stand in a member's script; 6, a disk of
/// the member failed while it was made or opened, or what lies beside, or its note can't be saved; 9, it was to be made
/// where something is there of it, or the disks that stand in for another hold something; 7, its disks hold nothing
/// with which it may be opened, or there is no tag of its volume, or no note; then 0, or 5, where the sink failed. Code
/// 3, want of memory, may come at any time.
///
/// What it promises stands clause by clause, by name, in `RunsMember` (`specs/Program.antt`).
pub fn member<S: Source, K: Sink, D: Disk, N: Disk + Drop, M: Mailbox>(
    alloc: Global,
    words: &Vec<String>,
    input: &mut S,
    output: &mut K,
    disks: &mut Vec<Pair<D>>,
    beside: &mut Beside<N>,
    mailbox: &mut M,
) -> Status
    requires pairs { length disks.old.items ≡ 8 }
    ensures { RunsMember (texts words.now.items) (seen_of S.Source input.old input.new K.Sink output.old output.new
        D.Disk disks.old disks.new N.Disk beside.old beside.new M.Mailbox mailbox.old mailbox.new) result }
{
    match read_member_words(alloc, words.as_slice()) {
        Ok(mode) => Status::of(carry_out(alloc, &mode, input, output, disks, beside, mailbox)),
        Err(fault) => Status::of(Err(Fault::Words(fault))),
    }
}

// Does what the mode asks for.
fn carry_out<S: Source, K: Sink, D: Disk, N: Disk + Drop, M: Mailbox>(
    alloc: Global,
    mode: &MemberMode,
    input: &mut S,
    output: &mut K,
    disks: &mut Vec<Pair<D>>,
    beside: &mut Beside<N>,
    mailbox: &mut M,
) -> Result<(), Fault>
    requires fits { FitsMember mode.now }
    requires pairs { length disks.old.items ≡ 8 }
    ensures does { Does mode.now (seen_of S.Source input.old input.new K.Sink output.old output.new D.Disk disks.old
        disks.new N.Disk beside.old beside.new M.Mailbox mailbox.old mailbox.new) result }
    ensures read { (fault : WordsFaultValue) → IsErrOf result (Fault.Words fault) → ⊥ }
{
    match mode {
        MemberMode::Init {
            size,
            replica,
            tag,
            ..
        } => as_ended(init(alloc, *size, *replica, *tag, disks, beside)),
        MemberMode::Run { replica, .. } => {
            run(alloc, *replica, input, output, disks, beside, mailbox)
        }
    }
}

// The fault of what was to be made, as one of the program.
fn as_ended(made: Result<(), WorldFault>) -> Result<(), Fault>
    ensures { result ≡ as_ended made }
{
    match made {
        Ok(()) => Ok(()),
        Err(fault) => Err(Fault::Storing(fault)),
    }
}
