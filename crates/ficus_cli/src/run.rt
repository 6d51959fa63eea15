ghost use Rattle.std.specs.Prelude.{◌≡◌, length};
ghost use Rattle.ficus_top.specs.Program.{RunsProgram};
ghost use Rattle.ficus_top.specs.Seen.{seen_of};
ghost use Rattle.ficus_top.specs.Words.{texts};

use ficus_disk::{Disk, Pair};
use ficus_outside::{Sink, Source, StdSink, StdSource};
use ficus_top::{Status, ficus};
use std::alloc::Global;
use std::io::{Input, Print};

/// Runs the program over the standard streams of a runtime and over these disks, and says how it ended. The streams
/// count their faults, and tell nothing of what they give and take, so no clause speaks of the script and of the
/// answers.
pub(crate) fn run<R: Input + Print + Clone + Drop, D: Disk>(
    alloc: Global,
    words: &Vec<String>,
    input: &mut StdSource<R>,
    output: &mut StdSink<R>,
    disks: &mut Vec<Pair<D>>,
) -> Status
    requires pairs { length disks.old.items ≡ 8 }
    ensures { RunsProgram (texts words.now.items) (seen_of ⟦<StdSource<R> as Source>⟧ input.old input.new
        ⟦<StdSink<R> as Sink>⟧ output.old output.new D.Disk disks.old disks.new) result }
{
    ficus(alloc, words, input, output, disks)
}
