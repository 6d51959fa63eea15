ghost use Rattle.std.specs.Prelude.{◌≡◌, ◌-◌, ◌^◌, ◌<◌, None, Err, IfErr, IfOk, OnOk, OnErr, IsTrue, ◌↔◌};
ghost use Rattle.ficus_ids.specs.Members.{IsMember};
ghost use Rattle.ficus_entry.specs.Entry.{IsRising};
ghost use Rattle.ficus_merge_entries.specs.Merge.{AreReplacements, MergesEntries};

use crate::{Asked, Replica};
use ficus_entry::{Entries, InOrder, SharedEntry};
use ficus_file::{Files, FilesInOrder, SharedFile};
use ficus_ids::{Members, Memory, Refusal};
use ficus_merge_entries::{PairWalk, all_new, replacements};
use ficus_merge_files::{News, merge_news, news_fit};
use std::alloc::Global;
use std::mem;

impl Replica {
    ghost use Rattle.std.specs.Prelude.{All};
    ghost use Rattle.ficus_durable_state.specs.Saved.{FitsImage, IsFileOfPast};
    ghost use Rattle.ficus_merge_files.specs.Merge.{Fit};
    ghost use Rattle.ficus_replica.specs.Accept.{AreTablesMerged, IsOpen, MayTake};
    ghost use Rattle.ficus_replica.specs.Accept.{MakesMerged, TakeGives, Taken};
    ghost use Rattle.ficus_replica.specs.Calls.{Accepts, FitsTaking};
    ghost use Rattle.ficus_ids.specs.declared.refusal.Refusal.{Refusal as RefusalValue};
    ghost use Rattle.ficus_ids.specs.declared.refusal.Refusal.TheVariants.{Stale};

    /// Takes the tables that a peer served in answer to an ask. Refused, in this order: `Stale` exactly where
    /// the open ask isn't of this peer and number; `BadMessage` exactly where the tables hold an identifier or a count
    /// of this replica's own that it hasn't issued, or the files can't be merged with its own.
    pub fn accept(
        &self,
        alloc: Global,
        from: u8,
        number: u64,
        entries: &Entries,
        files: &Files,
    ) -> Result<Replica, Refusal>
        requires { FitsTaking self.now.saved entries.now files.now }
        ensures { Accepts self.now from number entries.now files.now result }
    {
        self.awaited(from, number)?;
        self.take_tables(alloc, entries, files)
    }

    /// Takes tables by their rows, as [`accept`](Replica::accept) does.
    pub fn accept_rows(
        &self,
        alloc: Global,
        from: u8,
        number: u64,
        entries: &[SharedEntry],
        files: &[SharedFile],
    ) -> Result<Replica, Refusal>
        requires { FitsTaking self.now.saved entries.now files.now }
        ensures { Accepts self.now from number entries.now files.now result }
    {
        self.awaited(from, number)?;
        self.take_rows(alloc, entries, files)
    }

    // Takes tables, or refuses them, whether or not they were asked for.
    fn take_tables(
        &self,
        alloc: Global,
        entries: &Entries,
        files: &Files,
    ) -> Result<Replica, Refusal>
        requires { FitsTaking self.now.saved entries.now files.now }
        ensures { TakeGives self.now.saved entries.now files.now result }
    {
        self.take(alloc, &entries.in_order()?, files.in_order()?)
    }

    // Takes tables by their rows, or refuses them.
    fn take_rows(
        &self,
        alloc: Global,
        entries: &[SharedEntry],
        files: &[SharedFile],
    ) -> Result<Replica, Refusal>
        requires { FitsTaking self.now.saved entries.now files.now }
        ensures { TakeGives self.now.saved entries.now files.now result }
    {
        let entries = InOrder::of_rows(entries);
        let files = FilesInOrder::of_rows(files);
        self.take(alloc, &entries, files)
    }

    /// Takes an answer as a replica that isn't held further: its own entries are given up before the files are merged.
    pub(crate) fn into_taken(
        self,
        alloc: Global,
        entries: &[SharedEntry],
        files: &[SharedFile],
    ) -> Result<Replica, Refusal>
        requires { FitsTaking self.saved entries.now files.now }
        ensures { TakeGives self.saved entries.now files.now result }
    {
        let entries = InOrder::of_rows(entries);
        let files = FilesInOrder::of_rows(files);
        let mut replica = self;
        replica.become_taken(alloc, &entries, files)?;
        Ok(replica)
    }

    // Becomes what the taking of tables makes of it, or refuses them. After `Memory` nothing is promised of it.
    fn become_taken(
        &mut self,
        alloc: Global,
        entries: &InOrder<'_>,
        files: FilesInOrder<'_>,
    ) -> Result<(), Refusal>
        requires { FitsTaking self.old.saved entries.now files }
        ensures taken { OnOk result (Taken self.old.saved entries.now files.entry self.new) }
        ensures refused { OnErr result ((refusal : RefusalValue) × (result ≡ Err refusal)
            × TakeGives self.old.saved entries.now files.entry (Err refusal)) }
    {
        let held = self.saved.files.copy()?;
        let news = News::of(alloc, &held, files)?;
        if !self.fits(entries, &news) {
            return Err(Refusal::BadMessage);
        }
        self.become_merged(alloc, entries, &news)?;
        Ok(())
    }

    // Its tables become what they and these make together, the entries first.
    fn become_merged(
        &mut self,
        alloc: Global,
        entries: &InOrder<'_>,
        news: &News<'_>,
    ) -> Result<(), Memory>
        requires fits { FitsImage self.old.saved }
        requires mine { news.now.mine ≡ self.old.saved.files }
        requires fit { Fit self.old.saved.files news.now.theirs }
        requires generation { self.old.saved.generation < 2 ^ 63 - 1 }
        ensures { OnOk result
            (MakesMerged self.old.saved entries.now news.now.theirs self.new.saved × (self.new.ask ≡ None)) }
    {
        let held = mem::replace(&mut self.saved.entries, Entries::new(alloc));
        let merged = merge_held(alloc, held, entries, self.saved.me, self.saved.members)?;
        self.saved.entries = merged;
        let both = merge_news(alloc, news, &self.saved.entries)?;
        self.saved.files = both;
        self.saved.generation += 1;
        self.ask = None;
        Ok(())
    }

    // Whether its open ask is of this peer and number: `Stale` exactly where it isn't.
    fn awaited(&self, from: u8, number: u64) -> Result<(), Refusal>
        ensures open { OnOk result (IsOpen self.now from number) }
        ensures stale { IfErr result (λ refusal. (refusal ≡ Stale) × (IsOpen self.now from number → ⊥)) }
    {
        if self.waits_for(from, number) {
            Ok(())
        } else {
            Err(Refusal::Stale)
        }
    }

    /// Whether its open ask is of this peer and number.
    pub fn waits_for(&self, from: u8, number: u64) -> bool
        ensures { IsTrue result ↔ IsOpen self.now from number }
    {
        self.ask == Some(Asked { to: from, number })
    }

    // Takes rows, or refuses them.
    fn take(
        &self,
        alloc: Global,
        entries: &InOrder<'_>,
        files: FilesInOrder<'_>,
    ) -> Result<Replica, Refusal>
        requires { FitsTaking self.now.saved entries.now files }
        ensures { TakeGives self.now.saved entries.now files.entry result }
    {
        let news = News::of(alloc, &self.saved.files, files)?;
        if !self.fits(entries, &news) {
            return Err(Refusal::BadMessage);
        }
        let (merged, both) = self.merged(alloc, entries, &news)?;
        Ok(Replica {
            saved: self.saved_with(merged, both),
            ask: None,
        })
    }

    // What its tables and these make together.
    fn merged(
        &self,
        alloc: Global,
        entries: &InOrder<'_>,
        news: &News<'_>,
    ) -> Result<(Entries, Files), Memory>
        requires fits { FitsImage self.now.saved }
        requires mine { news.now.mine ≡ self.now.saved.files }
        requires fit { Fit self.now.saved.files news.now.theirs }
        ensures { IfOk result (λ tables. AreTablesMerged self.now.saved entries.now tables.0 news.now.theirs tables.1) }
    {
        let saved = &self.saved;
        let held = saved.entries.copy()?;
        let merged = merge_held(alloc, held, entries, saved.me, saved.members)?;
        let both = merge_news(alloc, news, &merged)?;
        Ok((merged, both))
    }

    // Whether the tables may be taken, where an answer is.
    fn fits(&self, entries: &InOrder<'_>, news: &News<'_>) -> bool
        requires fits { FitsImage self.now.saved }
        requires mine { news.now.mine ≡ self.now.saved.files }
        ensures { IsTrue result ↔ MayTake self.now.saved entries.now news.now.theirs }
    {
        self.saved.has_issued_entries(entries) && self.has_issued_files(news) && news_fit(news)
    }

    // Whether it has issued each identifier and each count of its own in the files of theirs.
    fn has_issued_files(&self, news: &News<'_>) -> bool
        requires fits { FitsImage self.now.saved }
        requires mine { news.now.mine ≡ self.now.saved.files }
        ensures { IsTrue result ↔ All (IsFileOfPast self.now.saved.me self.now.saved.next) news.now.theirs }
    {
        for index in 0..news.len() {
            if !self.saved.has_issued_file(news.at(index).theirs) {
                return false;
            }
        }
        true
    }
}

// What replica `me`, a member, holds after it has taken a peer's entries: the merge table, entry by entry. What it held
// is given up. Where little changes, all else is shared with that, and a new entry with the peer's, where these were
// made of rows.
fn merge_held(
    alloc: Global,
    held: Entries,
    theirs: &InOrder<'_>,
    me: u8,
    members: Members,
) -> Result<Entries, Memory>
    requires { IsMember members me }
    ensures merged { IfOk result (MergesEntries me members held theirs.now) }
    ensures rising { IfOk result IsRising }
{
    if let Some(rows) = all_new(&held, theirs) {
        return Entries::of_rows(alloc, rows);
    }
    let replacements = replacements_in(alloc, &held, theirs, me, members)?;
    held.replaced(&replacements)
}

// What becomes of its entries, where it isn't what stands there: one walk along them and the peer's, which ends before
// they are given up.
fn replacements_in(
    alloc: Global,
    held: &Entries,
    theirs: &InOrder<'_>,
    me: u8,
    members: Members,
) -> Result<Vec<SharedEntry>, Memory>
    requires { IsMember members me }
    ensures made { IfOk result (λ replacements.
        AreReplacements me members held.now theirs.now replacements.items) }
    ensures rising { IfOk result (λ replacements. IsRising replacements.items) }
{
    let mine = held.in_order()?;
    let mut walk = PairWalk::of(&mine, theirs);
    replacements(alloc, &mut walk, me, members, theirs.len())
}
