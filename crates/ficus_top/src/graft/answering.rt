ghost use Rattle.std.specs.Prelude.{◌≡◌, ◌<◌, ◌≤◌, ◌+◌, All, length, ℕ, OnOk, OnErr, IsErrOf};
ghost use Rattle.ficus_faults.specs.Faults.{Rose};
ghost use Rattle.ficus_top.specs.Graft.Runs.{AnswersFront, AnswersLines, AreHeld, ForeseeFew, HaveRoom, IsLineOf};
ghost use Rattle.ficus_top.specs.Graft.Serving.{Told, PutsLine, PutsLineFront};
ghost use Rattle.ficus_loop.specs.Serving.{script_limit, serving_limit};
ghost use Rattle.ficus_world.specs.Follows.{TellsFor};
ghost use Rattle.ficus_world.specs.World.{event_limit, most_unforeseen};

use crate::graft::volumes::Volumes;
use ficus_disk::{Disk, Pair};
use ficus_keeper::Keep;
use ficus_loop::{AnsweringFault, put_answer};
use ficus_outside::{Link, Sink};
use ficus_script::VolumeLine;
use std::alloc::Global;

/// Answers each line and puts its answer, before the next one. `Sink` comes where the sink failed, and always where it
/// counted a fault; `Memory` where memory was refused. Then some first lines were answered, of which the last answer
/// may be put in part; or all of theirs were put, and the next line's command was cut short.
pub fn answer_lines<S: Sink, D: Disk, K: Keep + Drop, L: Link + Drop>(
    alloc: Global,
    volumes: &mut Volumes<K, L>,
    disks: &mut Vec<Vec<Pair<D>>>,
    lines: &[VolumeLine],
    output: &mut S,
) -> Result<(), AnsweringFault>
    requires lines { All (IsLineOf (length volumes.old)) lines.now }
    requires count { length lines.now ≤ script_limit }
    requires room { HaveRoom serving_limit volumes.old }
    requires held { AreHeld K.Keep D.Disk volumes.old disks.old.items }
    ensures answers { OnOk result (AnswersLines S.tells L.tells (Told L.tells D.tells lines.now) K.Keep D.Disk lines.now
        volumes.old volumes.new disks.old.items disks.new.items (S.written output.old) (S.written output.new)) }
    ensures prefix { OnErr result (AnswersFront S.tells L.tells (Told L.tells D.tells lines.now) K.Keep D.Disk lines.now
        volumes.old volumes.new disks.old.items disks.new.items (S.written output.old) (S.written output.new)) }
    ensures failed { IsErrOf result AnsweringFault.Sink → Rose (S.faults output.old) (S.faults output.new) }
    ensures told { S.faults output.old < S.faults output.new → IsErrOf result AnsweringFault.Sink }
    ensures counted { S.faults output.old ≤ S.faults output.new }
{
    for line in lines {
        answer_line(alloc, volumes, disks, line, output)?;
    }
    Ok(())
}

// Answers one line and puts its answer.
fn answer_line<S: Sink, D: Disk, K: Keep + Drop, L: Link + Drop>(
    alloc: Global,
    volumes: &mut Volumes<K, L>,
    disks: &mut Vec<Vec<Pair<D>>>,
    line: &VolumeLine,
    output: &mut S,
) -> Result<(), AnsweringFault>
    requires line { IsLineOf (length volumes.old) line.now }
    requires room { HaveRoom event_limit volumes.old }
    requires held { AreHeld K.Keep D.Disk volumes.old disks.old.items }
    ensures answers { OnOk result (PutsLine S.tells L.tells (L.tells × TellsFor D.tells line.now.command) K.Keep D.Disk
        line.now volumes.old volumes.new disks.old.items disks.new.items (S.written output.old)
        (S.written output.new)) }
    ensures prefix { OnErr result (PutsLineFront S.tells L.tells (L.tells × TellsFor D.tells line.now.command) K.Keep
        D.Disk line.now volumes.old volumes.new disks.old.items disks.new.items (S.written output.old)
        (S.written output.new)) }
    ensures held { AreHeld K.Keep D.Disk volumes.new disks.new.items }
    ensures grows { (limit : ℕ) → ForeseeFew limit volumes.old → ForeseeFew (limit + most_unforeseen) volumes.new }
    ensures count { length volumes.new ≡ length volumes.old }
    ensures failed { IsErrOf result AnsweringFault.Sink → Rose (S.faults output.old) (S.faults output.new) }
    ensures told { S.faults output.old < S.faults output.new → IsErrOf result AnsweringFault.Sink }
    ensures counted { S.faults output.old ≤ S.faults output.new }
{
    let answer = volumes.step(alloc, disks, line)?;
    put_answer(alloc, &answer, output)
}
