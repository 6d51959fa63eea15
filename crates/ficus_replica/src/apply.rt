use crate::Replica;
use ficus_durable_state::Saved;
use ficus_entry::SharedEntry;
use ficus_file::SharedFile;
use ficus_ids::{Memory, Refusal};
use ficus_model::Op;
use ficus_record::{Record, RecordFault};
use std::alloc::Global;

/// The generation from which on nothing more is saved.
const LAST_GENERATION: u64 = (1 << 63) - 1;

impl Replica {
    ghost use Rattle.std.specs.Prelude.{◌≡◌, ◌-◌, ◌^◌, ◌<◌, None, IfErr, IfOk, IsErrOf};
    ghost use Rattle.ficus_record.specs.Record.{FitsOp, FitsRecord};
    ghost use Rattle.ficus_record.specs.declared.record.Record.TheVariants.{Accept as NotedAccept, Ask as NotedAsk, Change as NotedChange, Collect as NotedCollect};
    ghost use Rattle.ficus_durable_state.specs.Saved.{FitsImage};
    ghost use Rattle.ficus_durable_state.specs.Tables.{FitsTables};
    ghost use Rattle.ficus_replica.specs.Accept.{MayTake};
    ghost use Rattle.ficus_replica.specs.Makes.{FitsUpdate, IsFit, IsNoted};

    /// The replica that the record of an event makes of this one, which waits for no answer, as after a restart: it
    /// saves what it would save after the event. `Unfit` comes exactly where the record doesn't fit what is held,
    /// `NotRecord` never.
    pub fn apply(&self, alloc: Global, noted: &Record) -> Result<Replica, RecordFault>
        requires fits { FitsImage self.now.saved }
        requires spelled { FitsRecord self.now.saved.members noted.now }
        ensures noted { IfOk result (λ replica. IsNoted self.now.saved noted.now replica.saved) }
        ensures ask { IfOk result (λ replica. replica.ask ≡ None) }
        ensures unfit { IsErrOf result RecordFault.Unfit → IsFit self.now.saved noted.now → ⊥ }
        ensures never { IsErrOf result RecordFault.NotRecord → ⊥ }
    {
        self.copied()?.into_applied(alloc, noted)
    }

    /// What the record makes of a replica that isn't held further, whose entries are given up before files are merged.
    /// `Unfit` comes only where the record doesn't fit the replica, and `NotRecord` never.
    pub fn into_applied(self, alloc: Global, noted: &Record) -> Result<Replica, RecordFault>
        requires fits { FitsImage self.saved }
        requires spelled { FitsRecord self.saved.members noted.now }
        ensures noted { IfOk result (λ replica. IsNoted self.saved noted.now replica.saved) }
        ensures ask { IfOk result (λ replica. replica.ask ≡ None) }
        ensures unfit { IsErrOf result RecordFault.Unfit → IsFit self.saved noted.now → ⊥ }
        ensures never { IsErrOf result RecordFault.NotRecord → ⊥ }
    {
        if self.saved.generation >= LAST_GENERATION {
            return Err(RecordFault::Unfit);
        }
        Ok(Replica::open(self.noted_next(alloc, noted)?))
    }

    // The same replica once more, without the ask.
    fn copied(&self) -> Result<Replica, Memory>
        ensures { IfOk result (λ replica. replica.saved ≡ self.now.saved) }
    {
        let entries = self.saved.entries.copy()?;
        let files = self.saved.files.copy()?;
        Ok(Replica::open(Saved {
            entries,
            files,
            ..self.saved
        }))
    }

    // What is saved after the event of the record.
    fn noted_next(self, alloc: Global, noted: &Record) -> Result<Saved, RecordFault>
        requires fits { FitsImage self.saved }
        requires generation { self.saved.generation < 2 ^ 63 - 1 }
        requires spelled { FitsRecord self.saved.members noted.now }
        ensures noted { IfOk result (λ saved. IsNoted self.saved noted.now saved) }
        ensures unfit { IsErrOf result RecordFault.Unfit → IsFit self.saved noted.now → ⊥ }
        ensures never { IsErrOf result RecordFault.NotRecord → ⊥ }
    {
        match noted {
            Record::Change(op) => self.changed_next(alloc, op),
            Record::Ask => self.asked_next(),
            Record::Accept { entries, files } => {
                self.merged_next(alloc, entries.items(), files.items())
            }
            Record::Collect => self.collected_next(alloc),
        }
    }

    // What is saved after an ask.
    fn asked_next(&self) -> Result<Saved, RecordFault>
        requires fits { FitsImage self.now.saved }
        requires generation { self.now.saved.generation < 2 ^ 63 - 1 }
        ensures noted { IfOk result (λ saved. IsNoted self.now.saved NotedAsk saved) }
        ensures memory { IfErr result (λ fault. fault ≡ RecordFault.Memory) }
    {
        Ok(self.saved_again()?)
    }

    // What is saved after a collection.
    fn collected_next(&self, alloc: Global) -> Result<Saved, RecordFault>
        requires fits { FitsImage self.now.saved }
        requires generation { self.now.saved.generation < 2 ^ 63 - 1 }
        ensures noted { IfOk result (λ saved. IsNoted self.now.saved NotedCollect saved) }
        ensures memory { IfErr result (λ fault. fault ≡ RecordFault.Memory) }
    {
        Ok(self.collect(alloc)?.replica.saved)
    }

    // What is saved after the operation, where it fits.
    fn changed_next(&self, alloc: Global, op: &Op) -> Result<Saved, RecordFault>
        requires fits { FitsImage self.now.saved }
        requires generation { self.now.saved.generation < 2 ^ 63 - 1 }
        requires spelled { FitsOp op.now }
        ensures noted { IfOk result (λ saved. IsNoted self.now.saved (NotedChange op.now) saved) }
        ensures unfit { IsErrOf result RecordFault.Unfit → FitsUpdate self.now.saved op.now → ⊥ }
        ensures never { IsErrOf result RecordFault.NotRecord → ⊥ }
    {
        if !self.fits_update(op) {
            return Err(RecordFault::Unfit);
        }
        Ok(self.saved_after(alloc, op)?)
    }

    // What is saved once the tables of these rows are taken, where they fit.
    fn merged_next(
        self,
        alloc: Global,
        entries: &[SharedEntry],
        files: &[SharedFile],
    ) -> Result<Saved, RecordFault>
        requires fits { FitsImage self.saved }
        requires generation { self.saved.generation < 2 ^ 63 - 1 }
        requires tables { FitsTables self.saved.members entries.now files.now }
        ensures noted { IfOk result (λ saved. IsNoted self.saved (NotedAccept entries.now files.now) saved) }
        ensures unfit { IsErrOf result RecordFault.Unfit → MayTake self.saved entries.now files.now → ⊥ }
        ensures never { IsErrOf result RecordFault.NotRecord → ⊥ }
    {
        match self.into_taken(alloc, entries, files) {
            Ok(replica) => Ok(replica.saved),
            Err(Refusal::BadMessage) => Err(RecordFault::Unfit),
            Err(Refusal::Memory) => Err(RecordFault::Memory),
            Err(_) => unreachable!(),
        }
    }
}
