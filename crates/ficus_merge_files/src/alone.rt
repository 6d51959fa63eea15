ghost use Rattle.std.specs.Prelude.{◌↔◌, Contains, IfOk};
ghost use Rattle.ficus_ids.specs.Rising.{IsRisingBy};
ghost use Rattle.ficus_ids.specs.declared.id.Id.{Id as IdValue};
ghost use Rattle.ficus_merge_files.specs.Alone.{IsAlone, IsTakenFrom};

use crate::News;
use ficus_entry::Entries;
use ficus_ids::{Id, Memory};
use ficus_mentions::touched;
use std::alloc::Global;

/// The identifiers of the files of theirs alone that an entry names or lies in, rising.
pub(crate) fn taken(alloc: Global, entries: &Entries, news: &News<'_>) -> Result<Vec<Id>, Memory>
    ensures rising { IfOk result (λ ids. IsRisingBy (λ id. id) ids.items) }
    ensures taken { IfOk result (λ ids. (id : IdValue) → Contains ids.items id ↔
        IsTakenFrom entries.now news.now.mine news.now.theirs id) }
{
    let alone = theirs_alone(alloc, news)?;
    // Spares the walk along the entries, where nothing is new.
    if alone.is_empty() {
        return Ok(alone);
    }
    touched(alloc, entries, &alone)
}

// The identifiers of the files of theirs alone, rising.
fn theirs_alone(alloc: Global, news: &News<'_>) -> Result<Vec<Id>, Memory>
    ensures rising { IfOk result (λ ids. IsRisingBy (λ id. id) ids.items) }
    ensures alone { IfOk result (λ ids. (id : IdValue) → Contains ids.items id ↔
        IsAlone news.now.mine news.now.theirs id) }
{
    let mut ids = Vec::with_capacity(alloc, news.len())?;
    for index in 0..news.len() {
        let new = news.at(index);
        if new.mine.is_none() {
            ids.push(new.theirs.id)?;
        }
    }
    Ok(ids)
}
