ghost use Rattle.std.specs.Prelude.{◌≡◌, IfOk, codes};
ghost use Rattle.ficus_ids.specs.Name.{IsName};
ghost use Rattle.ficus_deciding.specs.View.{held_as, held_live};

use crate::{Next, Replica};
use ficus_durable_state::Saved;
use ficus_entry::{Entries, Entry, State};
use ficus_file::{FileReplica, Files};
use ficus_ids::{ATTIC, Id, Kind, Marks, Memory, Name};
use ficus_model::Op;
use std::alloc::Global;

impl Replica {
    ghost use Rattle.std.specs.Prelude.{◌-◌, ◌^◌, ◌<◌, ◌≤◌, OnOk};
    ghost use Rattle.ficus_deciding.specs.View.{tables_view};
    ghost use Rattle.ficus_durable_state.specs.Saved.{FitsImage};
    ghost use Rattle.ficus_entry.specs.Entry.{AddsEntry, Holds, IsRising};
    ghost use Rattle.ficus_entry.specs.Kill.{IsJustKilled};
    ghost use Rattle.ficus_file.specs.File.{made_file};
    ghost use Rattle.ficus_file.specs.Files.{AreFiles};
    ghost use Rattle.ficus_held_file_laws.specs.Laws.{Overwrites};
    ghost use Rattle.ficus_ids.specs.Kind.{FitsKind};
    ghost use Rattle.ficus_ids.specs.Rising.{Adds};
    ghost use Rattle.ficus_model.specs.declared.event.Op.{Op as Operation};
    ghost use Rattle.ficus_model.specs.declared.event.Op.TheVariants.{Discard as Discards, Make as Makes, Move as Moves, Remove as Removes};
    ghost use Rattle.ficus_replica.specs.Effect.{Applied, GivesName, IsReady, IsStepped, MayLink, MayWrite, attic_place, next_id};

    /// The replica once the operation is done, and the operation.
    pub(crate) fn applied(&self, alloc: Global, op: Op) -> Result<Next, Memory>
        requires ready { IsReady self.now.saved op }
        requires fits { FitsImage self.now.saved }
        requires generation { self.now.saved.generation < 2 ^ 63 - 1 }
        ensures applied { IfOk result (λ next. Applied self.now.saved op next.replica.saved) }
        ensures fits { IfOk result (λ next. FitsImage next.replica.saved) }
        ensures op { IfOk result (λ next. next.op ≡ op) }
        ensures ask { IfOk result (λ next. next.replica.ask ≡ self.now.ask) }
    {
        let saved = self.saved_after(alloc, &op)?;
        Ok(Next {
            replica: Replica {
                saved,
                ask: self.ask,
            },
            op,
        })
    }

    /// What is saved once the operation is done.
    pub(crate) fn saved_after(&self, alloc: Global, op: &Op) -> Result<Saved, Memory>
        requires ready { IsReady self.now.saved op.now }
        requires fits { FitsImage self.now.saved }
        requires generation { self.now.saved.generation < 2 ^ 63 - 1 }
        ensures applied { IfOk result (Applied self.now.saved op.now) }
        ensures fits { IfOk result FitsImage }
    {
        let (entries, files) = self.stepped(alloc, op)?;
        Ok(Saved {
            me: self.saved.me,
            members: self.saved.members,
            ids: self.saved.ids,
            bytes: self.saved.bytes,
            next: self.saved.next + 1,
            used: self.saved.used + written_by(op) as u32,
            generation: self.saved.generation + 1,
            entries,
            files,
        })
    }

    // The tables once the operation is done.
    fn stepped(&self, alloc: Global, op: &Op) -> Result<(Entries, Files), Memory>
        requires ready { IsReady self.now.saved op.now }
        requires fits { FitsImage self.now.saved }
        ensures { IfOk result (λ tables. IsStepped self.now.saved op.now tables.0 tables.1) }
    {
        match op {
            Op::Make {
                dir,
                name,
                kind,
                text,
            } => self.made(alloc, *dir, name, *kind, text.items()),
            Op::Write { file, bytes } | Op::Settle { file, bytes } | Op::Resolve { file, bytes } =>
                self.written(alloc, *file, bytes.items()),
            Op::Link { dir, name, target }
            | Op::Adopt {
                file: target,
                dir,
                name,
            } => self.named(*dir, name, *target),
            Op::Remove { entries, target } => self.removed(entries.items(), *target),
            Op::Move {
                entries,
                dir,
                name,
                target,
            } => self.moved(entries.items(), *dir, name, *target),
            Op::Discard { file } => self.discarded(*file),
        }
    }

    // The tables with a new object and an entry for it.
    fn made(
        &self,
        alloc: Global,
        dir: Id,
        name: &Name,
        kind: Kind,
        text: &[u8],
    ) -> Result<(Entries, Files), Memory>
        requires ready { IsReady self.now.saved (Makes dir name.now kind text.now) }
        requires fits { FitsImage self.now.saved }
        ensures { IfOk result (λ tables.
            IsStepped self.now.saved (Makes dir name.now kind text.now) tables.0 tables.1) }
    {
        let mut entries = self.saved.entries.copy()?;
        self.enter(&mut entries, dir, name, self.next_id())?;
        let files = self.files_with(alloc, kind, text)?;
        Ok((entries, files))
    }

    // The tables with one more entry of an object.
    fn named(&self, dir: Id, name: &Name, target: Id) -> Result<(Entries, Files), Memory>
        requires left { self.now.saved.next ≤ self.now.saved.ids }
        requires may { MayLink self.now.saved dir target }
        requires fits { FitsImage self.now.saved }
        ensures { (op : Operation) → GivesName op dir name.now target
            → IfOk result (λ tables. IsStepped self.now.saved op tables.0 tables.1) }
    {
        let mut entries = self.saved.entries.copy()?;
        self.enter(&mut entries, dir, name, target)?;
        let files = self.saved.files.copy()?;
        Ok((entries, files))
    }

    // The tables with these entries removed and what they lead to covered.
    fn removed(&self, removed: &[Id], target: Id) -> Result<(Entries, Files), Memory>
        requires ready { IsReady self.now.saved (Removes removed.now target) }
        requires fits { FitsImage self.now.saved }
        ensures { IfOk result (λ tables. IsStepped self.now.saved (Removes removed.now target) tables.0 tables.1) }
    {
        let mut entries = self.saved.entries.copy()?;
        entries.kill_all(removed, self.saved.me);
        let mut files = self.saved.files.copy()?;
        files.cover(target);
        Ok((entries, files))
    }

    // The tables with these entries removed and one entered in their place.
    fn moved(
        &self,
        removed: &[Id],
        dir: Id,
        name: &Name,
        target: Id,
    ) -> Result<(Entries, Files), Memory>
        requires ready { IsReady self.now.saved (Moves removed.now dir name.now target) }
        requires fits { FitsImage self.now.saved }
        ensures { IfOk result (λ tables.
            IsStepped self.now.saved (Moves removed.now dir name.now target) tables.0 tables.1) }
    {
        let mut entries = self.saved.entries.copy()?;
        entries.kill_all(removed, self.saved.me);
        // Comes after the removals, which it folds into the table.
        self.enter(&mut entries, dir, name, target)?;
        let files = self.saved.files.copy()?;
        Ok((entries, files))
    }

    // The tables with an entry of the attic for the file, removed at once, and the file covered.
    fn discarded(&self, file: Id) -> Result<(Entries, Files), Memory>
        requires ready { IsReady self.now.saved (Discards file) }
        requires fits { FitsImage self.now.saved }
        ensures { IfOk result (λ tables. IsStepped self.now.saved (Discards file) tables.0 tables.1) }
    {
        let mut entries = self.saved.entries.copy()?;
        entries.insert(self.attic_entry(file))?;
        let mut files = self.saved.files.copy()?;
        files.cover(file);
        Ok((entries, files))
    }

    // The entry of its next update in the attic, of whose removal it alone is known to know.
    fn attic_entry(&self, file: Id) -> Entry
        requires { FitsImage self.now.saved }
        ensures place { result ≡ held_as (attic_place (next_id self.now.saved) file) result.state }
        ensures removed { IsJustKilled self.now.saved.me result.state }
    {
        Entry {
            id: self.next_id(),
            dir: ATTIC,
            name: attic_name(),
            target: file,
            state: State::Dead {
                one: Marks::empty().with(self.saved.me),
                two: Marks::empty(),
            },
        }
    }

    // Adds the entry of its next update.
    fn enter(&self, entries: &mut Entries, dir: Id, name: &Name, target: Id) -> Result<(), Memory>
        requires { Holds entries.old (next_id self.now.saved) → ⊥ }
        ensures adds { OnOk result (AddsEntry entries.old entries.new (held_live (
            record { id = next_id self.now.saved; dir = dir; name = name.now; target = target }))) }
        ensures rising { OnOk result (IsRising entries.new) }
        ensures name { OnOk result (IsName name.now) }
    {
        let entry = new_entry(self.next_id(), dir, name, target)?;
        entries.insert(entry)?;
        Ok(())
    }

    // The files with a new object.
    fn files_with(&self, alloc: Global, kind: Kind, text: &[u8]) -> Result<Files, Memory>
        requires fits { FitsImage self.now.saved }
        requires text { FitsKind kind text.now }
        ensures adds { IfOk result (λ files. Adds self.now.saved.files files
            (made_file (next_id self.now.saved) kind self.now.saved.me text.now)) }
        ensures files { IfOk result AreFiles }
    {
        let text = text.to_vec(alloc)?;
        let file = FileReplica::made(self.next_id(), kind, self.saved.me, text)?;
        let mut files = self.saved.files.copy()?;
        files.insert(file)?;
        Ok(files)
    }

    // The tables with one version of the file in place of all.
    fn written(&self, alloc: Global, file: Id, bytes: &[u8]) -> Result<(Entries, Files), Memory>
        requires left { self.now.saved.next ≤ self.now.saved.ids }
        requires may { MayWrite self.now.saved file bytes.now }
        requires fits { FitsImage self.now.saved }
        ensures { (op : Operation) → Overwrites op file bytes.now
            → IfOk result (λ tables. IsStepped self.now.saved op tables.0 tables.1) }
    {
        let bytes = bytes.to_vec(alloc)?;
        let entries = self.saved.entries.copy()?;
        let mut files = self.saved.files.copy()?;
        files.advance(file, self.saved.me, bytes);
        Ok((entries, files))
    }

    /// The number of its next update, if it may make one.
    pub fn next_id(&self) -> Id
        ensures { result ≡ next_id self.now.saved }
    {
        Id {
            replica: self.saved.me,
            number: self.saved.next,
        }
    }
}

ghost use Rattle.std.specs.Prelude.{length as long};
ghost use Rattle.ficus_model.specs.Versions.{bytes_of as bytes_written};
ghost use Rattle.ficus_replica.specs.Effect.{HasName};

// How many bytes the operation writes.
fn written_by(op: &Op) -> usize
    ensures { result ≡ long (bytes_written op.now) }
{
    match op {
        Op::Make { text: bytes, .. }
        | Op::Write { bytes, .. }
        | Op::Settle { bytes, .. }
        | Op::Resolve { bytes, .. } => bytes.items().len(),
        Op::Link { .. }
        | Op::Remove { .. }
        | Op::Move { .. }
        | Op::Adopt { .. }
        | Op::Discard { .. } => 0,
    }
}

/// Tells that the name that the operation gives is one.
pub(crate) fn tell_name(op: &Op)
    ensures { HasName op.now }
{
    match op {
        Op::Make { name, .. }
        | Op::Link { name, .. }
        | Op::Move { name, .. }
        | Op::Adopt { name, .. } => {
            let _bytes = name.bytes();
        }
        Op::Remove { .. }
        | Op::Write { .. }
        | Op::Settle { .. }
        | Op::Resolve { .. }
        | Op::Discard { .. } => {}
    }
}

// The name that each entry of the attic has.
fn attic_name() -> Name
    ensures { result ≡ codes "discarded" }
{
    let Ok(name) = Name::new(b"discarded") else {
        unreachable!()
    };
    name
}

// The live entry with these parts.
fn new_entry(id: Id, dir: Id, name: &Name, target: Id) -> Result<Entry, Memory>
    ensures entry { IfOk result (λ entry.
        entry ≡ held_live (record { id = id; dir = dir; name = name.now; target = target })) }
    ensures name { IsName name.now }
{
    // Tells that the name is one.
    let _bytes = name.bytes();
    Ok(Entry {
        id,
        dir,
        name: name.copy()?,
        target,
        state: State::Live,
    })
}
