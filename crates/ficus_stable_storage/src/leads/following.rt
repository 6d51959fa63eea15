ghost use Rattle.std.specs.Prelude.{IfOk, IsErrOf};
ghost use Rattle.ficus_stable_storage.specs.Leads.Chain.{LeadAll};
ghost use Rattle.ficus_stable_storage.specs.Leads.Holds.{Leads};
ghost use Rattle.ficus_durable_state.specs.Saved.{FitsImage};
ghost use Rattle.ficus_durable_state.specs.declared.saved.Saved.{Saved as SavedValue};

use crate::leads::one_led;
use ficus_durable_state::Saved;
use ficus_ids::Listed;
use ficus_record::{RecordFault, decode_record};
use ficus_replica::Replica;
use std::alloc::Global;

/// What is saved once the records are applied, from the first to the last, to what was saved before. An error besides
/// `Memory` comes exactly where they lead to nothing: where one of them is no record, or doesn't fit what those before
/// it lead to. The bytes of each are given up before it is applied.
pub fn led_by(alloc: Global, base: Saved, records: Vec<Listed<u8>>) -> Result<Saved, RecordFault>
    requires { FitsImage base }
    ensures led { IfOk result (LeadAll Leads records.items base) }
    ensures none { (saved : SavedValue) → LeadAll Leads records.items base saved
        → (IsErrOf result RecordFault.NotRecord → ⊥) × (IsErrOf result RecordFault.Unfit → ⊥) }
{
    one_led();
    let mut replica = Replica::open(base);
    'records: for body in records {
        replica = one_step(alloc, replica, body)?;
    }
    Ok(replica.saved)
}

// What one record leads to.
fn one_step(alloc: Global, old: Replica, body: Listed<u8>) -> Result<Replica, RecordFault>
    requires { FitsImage old.saved }
    ensures led { IfOk result (λ next. Leads body old.saved next.saved) }
    ensures none { (next : SavedValue) → Leads body old.saved next
        → (IsErrOf result RecordFault.NotRecord → ⊥) × (IsErrOf result RecordFault.Unfit → ⊥) }
{
    let saved = &old.saved;
    let noted = decode_record(alloc, body.items(), saved.members)?;
    drop(body);
    old.into_applied(alloc, &noted)
}
