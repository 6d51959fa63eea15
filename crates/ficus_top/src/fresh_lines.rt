ghost use Rattle.std.specs.Prelude.{◌≡◌, ◌≤◌, ◌<◌, All, length, OnErr, OnOk, IsErrOf};
ghost use Rattle.ficus_faults.specs.Faults.{Rose};
ghost use Rattle.ficus_top.specs.Graft.Crossing.{AreFew};
ghost use Rattle.ficus_top.specs.Graft.Runs.{IsLineOf};
ghost use Rattle.ficus_top.specs.Fresh.{AnswersFresh, AnswersFreshFront, AreUnfailed};
ghost use Rattle.ficus_ids.specs.Members.{IsCount};
ghost use Rattle.ficus_durable_state.specs.Limits.{byte_limit, update_limit};
ghost use Rattle.ficus_loop.specs.Serving.{script_limit};
ghost use Rattle.ficus_top.specs.Summary.Sized.{sized};

use crate::fresh::{Fresh, fresh_volumes};
use crate::graft::{Volumes, answer_lines};
use crate::summary::Keeper;
use ficus_ids::Members;
use ficus_loop::AnsweringFault;
use ficus_outside::{MemLink, Sink};
use ficus_script::VolumeLine;
use std::alloc::Global;

/// Answers the lines over so many fresh volumes in memory, each with so many members and these limits. `Sink` comes
/// where the sink failed, and always where it counted a fault; `Memory` where memory was refused. Then some first lines
/// were answered, of which the last answer may be put in part. The volumes are given up with the call.
pub(crate) fn answer_fresh<S: Sink>(
    alloc: Global,
    members: Members,
    ids: u32,
    bytes: u32,
    count: u8,
    lines: &[VolumeLine],
    output: &mut S,
) -> Result<(), AnsweringFault>
    requires members { IsCount members }
    requires ids_at_least { 1 ≤ ids }
    requires ids_at_most { ids ≤ update_limit }
    requires bytes { bytes ≤ byte_limit }
    requires few { AreFew count }
    requires lines { All (IsLineOf count) lines.now }
    requires short { length lines.now ≤ script_limit }
    ensures answers { OnOk result (AnswersFresh S.tells (sized members ids bytes) count lines.now (S.written output.old)
        (S.written output.new)) }
    ensures prefix { OnErr result (AnswersFreshFront S.tells (sized members ids bytes) count lines.now
        (S.written output.old) (S.written output.new)) }
    ensures failed { IsErrOf result AnsweringFault.Sink → Rose (S.faults output.old) (S.faults output.new) }
    ensures told { S.faults output.old < S.faults output.new → IsErrOf result AnsweringFault.Sink }
    ensures counted { S.faults output.old ≤ S.faults output.new }
{
    let Fresh { worlds, mut disks } = fresh_volumes(alloc, members, ids, bytes, count)?;
    let mut volumes = Volumes::new(worlds);
    let answered = answer_lines(alloc, &mut volumes, &mut disks, lines, output);
    read_links(&volumes);
    answered
}

// Reads the link of each volume. Reading one in memory tells that it counts no fault.
fn read_links(volumes: &Volumes<Keeper, MemLink>)
    ensures { AreUnfailed volumes.now }
{
    for world in volumes.worlds() {
        let _ = world.link();
    }
}
