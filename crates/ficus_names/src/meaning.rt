ghost use Rattle.std.specs.Prelude.{◌≡◌, ◌↔◌, ℕ, List, Option, Result};
ghost use Rattle.ficus_entry.specs.declared.entry.Entry.{Entry as EntryValue};
ghost use Rattle.ficus_ids.specs.declared.id.Id.{Id as IdValue};
ghost use Rattle.ficus_ids.specs.declared.refusal.Refusal.{Refusal as RefusalValue};
ghost use Rattle.ficus_names.specs.Binds.{BindsIn};
ghost use Rattle.ficus_names.specs.Find.{FindAnswer, FindsOnly, FindsTarget};

use ficus_entry::{Entries, Leading};
use ficus_ids::{Id, Name, Refusal};
use ficus_path::Part;

/// The object that a part of a path means in a directory. With a target, `NoEntry` comes exactly where no live
/// entry has this name and target. Without, it comes exactly where no live entry has the name, and `Ambiguous`
/// exactly where entries of the name lead to several objects. Takes no memory.
pub fn find(entries: &Entries, dir: Id, part: &Part) -> Result<Id, Refusal>
    ensures { FindAnswer (BindsIn entries.now dir) part.now.name part.now.target result }
{
    match part.target {
        Some(target) => find_target(entries, dir, &part.name, target),
        None => find_only(entries, dir, &part.name),
    }
}

/// The law that directories in which the same names lead to the same objects give the same answers. It does
/// nothing when it runs.
pub fn same_answer()
    ensures { (entries others : List EntryValue) (dir other_dir : IdValue)
        (name : List ℕ) (target : Option IdValue) (answer other : Result IdValue RefusalValue) →
        ((name : List ℕ) (target : IdValue) →
        BindsIn entries dir name target ↔ BindsIn others other_dir name target) →
        FindAnswer (BindsIn entries dir) name target answer →
        FindAnswer (BindsIn others other_dir) name target other → answer ≡ other }
{}

fn find_target(entries: &Entries, dir: Id, name: &Name, target: Id) -> Result<Id, Refusal>
    ensures { FindsTarget (BindsIn entries.now dir) name.now target result }
{
    match entries.named(dir, name, Leading::To(target)) {
        Some(_) => Ok(target),
        None => Err(Refusal::NoEntry),
    }
}

fn find_only(entries: &Entries, dir: Id, name: &Name) -> Result<Id, Refusal>
    ensures { FindsOnly (BindsIn entries.now dir) name.now result }
{
    let Some(entry) = entries.named(dir, name, Leading::Anywhere) else {
        return Err(Refusal::NoEntry);
    };
    match entries.named(dir, name, Leading::Besides(entry.target)) {
        Some(_) => Err(Refusal::Ambiguous),
        None => Ok(entry.target),
    }
}
