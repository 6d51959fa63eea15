ghost use Rattle.std.specs.Prelude.{◌≡◌, IfErr, OnOk};
ghost use Rattle.ficus_top.specs.Graft.Crossing.{AreFew};
ghost use Rattle.ficus_top.specs.Ending.{IsAnswering, IsIdle, IsOfJoining, TakesAsEndedIn, TellsOfStreams};
ghost use Rattle.ficus_top.specs.Grammar.{of_volumes};
ghost use Rattle.ficus_top.specs.Making.{FitsSize, volume_of};
ghost use Rattle.ficus_top.specs.Modes.Volumes.{AnswersVolumes, AnswersVolumesFront};

use crate::fault::Fault;
use crate::fresh_lines::answer_fresh;
use crate::read::read_volume_lines;
use ficus_outside::{Sink, Source};
use ficus_words::Size;
use std::alloc::Global;

/// Reads the script, makes so many fresh volumes of this size in memory, and answers the lines over them.
pub(crate) fn join<S: Source, K: Sink>(
    alloc: Global,
    size: Size,
    count: u8,
    input: &mut S,
    output: &mut K,
) -> Result<(), Fault>
    requires size { FitsSize size }
    requires few { AreFew count }
    ensures kinds { IfErr result IsOfJoining }
    ensures takes { S.tells → TakesAsEndedIn (of_volumes count) (S.left input.old) (S.left input.new) result }
    ensures answers { S.tells → OnOk result (AnswersVolumes K.tells (volume_of size) count (S.left input.old)
        (K.written output.old) (K.written output.new)) }
    ensures prefix { S.tells → IfErr result (λ fault. IsAnswering fault
        → AnswersVolumesFront K.tells (volume_of size) count (S.left input.old) (K.written output.old)
        (K.written output.new)) }
    ensures idle { IfErr result (λ fault. IsIdle fault → output.new ≡ output.old) }
    ensures streams { TellsOfStreams (S.faults input.old) (S.faults input.new) (K.faults output.old)
        (K.faults output.new) result }
{
    let lines = read_volume_lines(alloc, input, count)?;
    answer_fresh(
        alloc,
        size.members,
        size.ids,
        size.bytes,
        count,
        &lines,
        output,
    )?;
    Ok(())
}
