ghost use Rattle.std.specs.Prelude.{◌≡◌, ◌<◌, ◌≤◌, ◌^◌, IsErrOf, OnOk};
ghost use Rattle.ficus_faults.specs.Faults.{Rose};
ghost use Rattle.ficus_ids.specs.Members.{IsCount};
ghost use Rattle.ficus_top.specs.Modes.Gen.{IsGenCode, PutsSummary, PutsSummaryFront};

use crate::fault::Fault;
use crate::status::Status;
use crate::summary::summarize;
use ficus_ids::Members;
use ficus_loop::{AnsweringFault, put_all};
use ficus_outside::Sink;
use std::alloc::Global;

/// Runs the script of the seed in memory, and puts what it comes to. Ends with code 0; 3, for want of memory; or 5,
/// where the sink fails.
pub(crate) fn tell<K: Sink>(
    alloc: Global,
    members: Members,
    seed: u32,
    steps: u32,
    output: &mut K,
) -> Status
    requires members { IsCount members }
    requires seed { seed < 2 ^ 31 }
    requires steps { steps ≤ 5000 }
    ensures codes { IsGenCode result.code }
    ensures told { K.tells → result.code ≡ 0
        → PutsSummary members seed steps (K.written output.old) (K.written output.new) }
    ensures prefix { K.tells → result.code ≡ 5
        → PutsSummaryFront members seed steps (K.written output.old) (K.written output.new) }
    ensures silent { result.code ≡ 3 → output.new ≡ output.old }
    ensures write_fault { result.code ≡ 5 → Rose (K.faults output.old) (K.faults output.new) }
    ensures write_fault_comes { K.faults output.old < K.faults output.new → result.code ≡ 5 }
    ensures numbers { (result.line ≡ 0) × (result.replica ≡ 0) }
    ensures counted { K.faults output.old ≤ K.faults output.new }
{
    match put_summary(alloc, members, seed, steps, output) {
        Ok(()) => Status::of(Ok(())),
        Err(fault) => Status::of(Err(Fault::Answering(fault))),
    }
}

// Puts what the script of the seed comes to.
fn put_summary<K: Sink>(
    alloc: Global,
    members: Members,
    seed: u32,
    steps: u32,
    output: &mut K,
) -> Result<(), AnsweringFault>
    requires members { IsCount members }
    requires seed { seed < 2 ^ 31 }
    requires steps { steps ≤ 5000 }
    ensures told { K.tells
        → OnOk result (PutsSummary members seed steps (K.written output.old) (K.written output.new)) }
    ensures prefix { K.tells → IsErrOf result AnsweringFault.Sink
        → PutsSummaryFront members seed steps (K.written output.old) (K.written output.new) }
    ensures silent { IsErrOf result AnsweringFault.Memory → output.new ≡ output.old }
    ensures failed { IsErrOf result AnsweringFault.Sink → Rose (K.faults output.old) (K.faults output.new) }
    ensures comes { K.faults output.old < K.faults output.new → IsErrOf result AnsweringFault.Sink }
    ensures counted { K.faults output.old ≤ K.faults output.new }
{
    let text = summarize(alloc, members, seed, steps)?;
    put_all(output, &text)?;
    Ok(())
}
