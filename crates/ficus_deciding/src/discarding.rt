ghost use Rattle.ficus_durable_state.specs.Saved.{FitsImage};
ghost use Rattle.ficus_rules.specs.Discard.{DiscardRule};
ghost use Rattle.ficus_deciding.specs.View.{tables_view};

use crate::limits::is_spent;
use crate::walk::{is_directory, is_orphan_here};
use ficus_durable_state::Saved;
use ficus_ids::{Id, Refusal};
use ficus_model::Op;

/// An orphan that is a file, given up. Takes no memory.
pub fn discard(saved: &Saved, orphan: Id) -> Result<Op, Refusal>
    requires { FitsImage saved.now }
    ensures { DiscardRule (tables_view saved.now) orphan result }
{
    if !is_orphan_here(saved, orphan) {
        return Err(Refusal::NotOrphan);
    }
    if is_directory(saved, orphan) {
        return Err(Refusal::IsDir);
    }
    if is_spent(saved) {
        return Err(Refusal::Spent);
    }
    Ok(Op::Discard { file: orphan })
}
