ghost use Rattle.std.specs.Prelude.{◌≡◌, IfNone, IfSome, None, Some};
ghost use Rattle.ficus_machine.specs.Machine.{ask_of};
ghost use Rattle.ficus_machine.specs.Moments.{NotesTo, Noting};
ghost use Rattle.ficus_machine.specs.Noting.{PreparesNote, SavesNote, SettlesNote};
ghost use Rattle.ficus_note.specs.Calls.{IsReady};

use crate::Machine;
use crate::fault::LineFault;
use crate::machine::noted_of;
use ficus_disk::{Disk, Pair};
use ficus_keeper::Keep;
use ficus_note::{Asked as Noted, Note};
use ficus_replica::Asked;

/// Takes all that the next save of the note needs. `Note` comes only where no further one can be saved.
pub(crate) fn prepare_note<N: Disk>(note: &mut Note, slots: &mut Pair<N>) -> Result<(), LineFault>
    requires ready { N.tells → IsReady N.Disk note.old slots.old }
    ensures prepares { PreparesNote N.Disk result note.old note.new slots.old slots.new }
    ensures noting { Noting N.Disk note.old.asked note.old.asked slots.old slots.new }
{
    if note.is_full() {
        return Err(LineFault::Note);
    }
    note.prepare(slots)?;
    Ok(())
}

/// Notes this as the open ask, or that none is. `Note` comes only where a disk failed, or no further note can be saved.
pub(crate) fn save_note<N: Disk>(
    note: &mut Note,
    slots: &mut Pair<N>,
    noted: Option<Noted>,
) -> Result<(), LineFault>
    requires ready { N.tells → IsReady N.Disk note.old slots.old }
    ensures saves { SavesNote N.Disk noted result note.old note.new slots.old slots.new }
    ensures notes { NotesTo N.Disk result note.old note.new slots.old slots.new }
{
    if note.asked() == noted {
        return Ok(());
    }
    prepare_note(note, slots)?;
    note.save(slots, noted)?;
    Ok(())
}

impl<K: Keep + Drop> Machine<K> {
    /// Notes the ask that is open, or that none is.
    pub(crate) fn settle_note<N: Disk>(&mut self, slots: &mut Pair<N>) -> Result<(), LineFault>
        requires ready { N.tells → IsReady N.Disk self.old.note slots.old }
        ensures settles { SettlesNote N.Disk result self.old self.new slots.old slots.new }
        ensures notes { NotesTo N.Disk result self.old.note self.new.note slots.old slots.new }
    {
        save_note(
            &mut self.note,
            slots,
            as_noted(self.world.open_ask(self.me)),
        )
    }
}

// An ask that is open, as the note has it.
fn as_noted(asked: Option<Asked>) -> Option<Noted>
    ensures some { IfSome result (λ noted. asked ≡ Some (ask_of noted)) }
    ensures none { IfNone result (asked ≡ None) }
{
    asked.map(noted_of)
}
