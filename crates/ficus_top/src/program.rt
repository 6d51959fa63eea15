ghost use Rattle.std.specs.Prelude.{◌≡◌, length};
ghost use Rattle.ficus_top.specs.Program.{DoesIn, FitsMode, RunsProgram};
ghost use Rattle.ficus_top.specs.Seen.{seen_of};
ghost use Rattle.ficus_top.specs.Words.{texts};

use crate::checking::check;
use crate::fault::Fault;
use crate::joining::join;
use crate::making::init;
use crate::running::{replay, run};
use crate::status::Status;
use crate::telling::tell;
use ficus_disk::{Disk, Pair};
use ficus_outside::{Sink, Source};
use ficus_words::{Mode, read_words};
use std::alloc::Global;

/// Runs the program: reads the words, and does what they ask for with the disks, a pair for each of eight replicas.
///
/// `init` makes a fresh volume on them. `run` reads the whole script from the source, opens the volume, and then
/// answers each command on the sink. `check` judges what the disks of each replica hold, and then puts a line of each;
/// it takes nothing from the source, and writes nothing on a disk. `replay` reads the script, makes a fresh volume,
/// opens it and answers the commands. `volumes` reads the script, makes fresh volumes on disks of its own in memory,
/// and answers the lines over them. `gen` makes a script from a number, runs it on disks of its own in memory, and puts
/// a summary.
///
/// The codes, in the order in which they are tested: 1, the words aren't those of a mode; 4, the source failed;
/// 8, it gave more bytes than a script has; 2, a line is no command, and the first such line is named; 6, a disk of the
/// named replica failed while the volume was made or opened, or its disks were judged; 9, a volume was to be made where
/// a disk of the named replica holds something; 7, the disks of the named replica hold no image with which a volume may
/// be opened; then 0, or 5, where the sink failed. Code 3, want of memory, may come at any time. After 1, 2, 4 and 8
/// nothing was done, and after 6, 7 and 9 nothing was put.
///
/// What it promises stands clause by clause, by name, in `RunsProgram` (`specs/Program.antt`).
pub fn ficus<S: Source, K: Sink, D: Disk>(
    alloc: Global,
    words: &Vec<String>,
    input: &mut S,
    output: &mut K,
    disks: &mut Vec<Pair<D>>,
) -> Status
    requires pairs { length disks.old.items ≡ 8 }
    ensures { RunsProgram (texts words.now.items) (seen_of S.Source input.old input.new K.Sink output.old output.new
        D.Disk disks.old disks.new) result }
{
    match read_words(alloc, words.as_slice()) {
        Ok(mode) => carry_out(alloc, &mode, input, output, disks),
        Err(fault) => Status::of(Err(Fault::Words(fault))),
    }
}

// Does what the mode asks for.
fn carry_out<S: Source, K: Sink, D: Disk>(
    alloc: Global,
    mode: &Mode,
    input: &mut S,
    output: &mut K,
    disks: &mut Vec<Pair<D>>,
) -> Status
    requires fits { FitsMode mode.now }
    requires pairs { length disks.old.items ≡ 8 }
    ensures { DoesIn mode.now (seen_of S.Source input.old input.new K.Sink output.old output.new D.Disk disks.old
        disks.new) result }
{
    match mode {
        Mode::Init { size, .. } => Status::of(init(alloc, *size, disks)),
        Mode::Run { .. } => Status::of(run(alloc, input, output, disks)),
        Mode::Check { .. } => check(alloc, output, disks),
        Mode::Replay { size } => Status::of(replay(alloc, *size, input, output, disks)),
        Mode::Volumes { size, count } => Status::of(join(alloc, *size, *count, input, output)),
        Mode::Gen {
            members,
            seed,
            steps,
        } => tell(alloc, *members, *seed, *steps, output),
    }
}
