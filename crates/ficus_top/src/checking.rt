ghost use Rattle.std.specs.Prelude.{◌≡◌, ◌≢◌, ◌⊎◌, ◌++◌, ◌<◌, ◌≤◌, length, IsErrOf, OnOk};
ghost use Rattle.ficus_opening.specs.Check.Lines.{checked_text};
ghost use Rattle.ficus_faults.specs.Faults.{Rose};
ghost use Rattle.ficus_loop.specs.Puts.{PutsFront};
ghost use Rattle.ficus_top.specs.Modes.Check.{AreJudged, FailsAs, IsCheckCode, PutsJudgements, PutsJudgementsFront, StaysUnwritten};
ghost use Rattle.ficus_opening.specs.Opening.{IsAtFault, Steady};

use crate::fault::Fault;
use crate::status::Status;
use crate::summary::Keeper;
use ficus_disk::{Disk, Pair};
use ficus_loop::{AnsweringFault, put_all};
use ficus_opening::WorldFault;
use ficus_opening::check::{Checked, checked_text};
use ficus_outside::{MemLink, Sink};
use ficus_world::World;
use std::alloc::Global;

/// Judges what the disks of each replica hold, and then puts a line of each. Ends with code 0; 3, for want of memory;
/// 5, where the sink fails; or 6, where a disk of the named replica fails. With 3 and 6 nothing was put.
pub(crate) fn check<K: Sink, D: Disk>(
    alloc: Global,
    output: &mut K,
    disks: &mut Vec<Pair<D>>,
) -> Status
    requires pairs { length disks.old.items ≡ 8 }
    ensures codes { IsCheckCode result.code }
    ensures unwritten { StaysUnwritten D.Disk disks.old.items disks.new.items }
    ensures unfailed { result.code ≢ 6 → Steady D.faults disks.old.items disks.new.items }
    ensures told { K.tells → result.code ≡ 0 → PutsJudgements D.tells D.seen disks.old.items
        (K.written output.old) (K.written output.new) }
    ensures prefix { K.tells → result.code ≡ 5 → PutsJudgementsFront D.tells D.seen disks.old.items
        (K.written output.old) (K.written output.new) }
    ensures silent { (result.code ≡ 3) ⊎ (result.code ≡ 6) → output.new ≡ output.old }
    ensures write_fault { result.code ≡ 5 → Rose (K.faults output.old) (K.faults output.new) }
    ensures write_fault_comes { K.faults output.old < K.faults output.new → result.code ≡ 5 }
    ensures store_fault { result.code ≡ 6 → IsAtFault D.faults disks.old.items disks.new.items result.replica }
    ensures line { result.line ≡ 0 }
    ensures replica { result.code ≢ 6 → result.replica ≡ 0 }
    ensures counted { K.faults output.old ≤ K.faults output.new }
{
    let mut judgements = [Checked::Empty; 8];
    match judge_all(alloc, disks, &mut judgements) {
        Ok(()) => match put_text(alloc, &judgements, output) {
            Ok(()) => Status::of(Ok(())),
            Err(fault) => Status::of(Err(Fault::Answering(fault))),
        },
        Err(fault) => Status::of(Err(Fault::Storing(fault))),
    }
}

// Judges what the disks of each replica hold.
fn judge_all<D: Disk>(
    alloc: Global,
    disks: &mut Vec<Pair<D>>,
    judgements: &mut [Checked],
) -> Result<(), WorldFault>
    requires pairs { length disks.old.items ≡ 8 }
    requires places { length judgements.old ≡ 8 }
    ensures judged { OnOk result (AreJudged D.tells D.seen disks.old.items judgements.new) }
    ensures unwritten { StaysUnwritten D.Disk disks.old.items disks.new.items }
    ensures faults { FailsAs D.faults result disks.old.items disks.new.items }
{
    for before in 0..8u8 {
        judgements[usize::from(before)] = World::<Keeper, MemLink>::check(
            alloc,
            disks,
            before + 1,
        )?;
    }
    Ok(())
}

// Puts a line of each replica.
fn put_text<K: Sink>(
    alloc: Global,
    judgements: &[Checked],
    output: &mut K,
) -> Result<(), AnsweringFault>
    ensures told { K.tells
        → OnOk result (K.written output.new ≡ K.written output.old ++ checked_text judgements.now) }
    ensures prefix { K.tells → IsErrOf result AnsweringFault.Sink
        → PutsFront (K.written output.old) (checked_text judgements.now) (K.written output.new) }
    ensures silent { IsErrOf result AnsweringFault.Memory → output.new ≡ output.old }
    ensures failed { IsErrOf result AnsweringFault.Sink → Rose (K.faults output.old) (K.faults output.new) }
    ensures comes { K.faults output.old < K.faults output.new → IsErrOf result AnsweringFault.Sink }
    ensures counted { K.faults output.old ≤ K.faults output.new }
{
    let text = checked_text(alloc, judgements)?;
    put_all(output, &text)?;
    Ok(())
}
