ghost use Rattle.std.specs.Prelude.{◌≡◌, ◌↔◌, ℕ, List, Contains, IfOk, IsTrue};
ghost use Rattle.std.specs.List.Sorted.{IsStrictlySortedBy};
ghost use Rattle.ficus_ids.specs.declared.id.Id.{Id as IdValue};
ghost use Rattle.ficus_names.specs.Binds.{BindsIn};
ghost use Rattle.ficus_names.specs.Clash.{AreNameClashes, LeadsFrom, lead_cmp};
ghost use Rattle.ficus_names.specs.Find.{LeadsToSeveral};
ghost use Rattle.ficus_names.specs.declared.clash.NameClash.{NameClash as NameClashValue};

use crate::once::{are_same, once_each};
use ficus_entry::{Entries, Entry};
use ficus_ids::{Id, Listed, Memory, Name};
use std::alloc::Global;

/// A name in a directory. In `Clashes` it leads to several objects.
#[derive(Drop, PartialEq, Eq, PartialOrd, Ord)]
pub struct NameClash {
    pub dir: Id,
    pub name: Name,
}

/// What is in conflict.
#[derive(Drop)]
pub struct Clashes {
    /// The names that lead to several objects, by directory, then by the bytes of the name.
    pub names: Listed<NameClash>,
    /// The files with versions that differ in bytes, by identifier.
    pub files: Listed<Id>,
}

/// A name in a directory with an object to which it leads.
#[derive(Drop, PartialEq, Eq, PartialOrd, Ord)]
pub struct Lead {
    pub place: NameClash,
    pub target: Id,
}

/// The names under which live entries of a directory lead to several objects, by directory, then by the bytes of the
/// name. It sorts the live entries once.
pub fn name_clashes(alloc: Global, entries: &Entries) -> Result<Vec<NameClash>, Memory>
    ensures { IfOk result (λ clashes. AreNameClashes (BindsIn entries.now) clashes.items) }
{
    let leads = once_each(leads_of(alloc, entries)?);
    Ok(once_each(shared_places(alloc, &leads)?))
}

/// Whether in both the same names in the same directories lead to the same objects. It sorts the live entries of both
/// once.
pub fn same_names(alloc: Global, one: &Entries, other: &Entries) -> Result<bool, Memory>
    ensures { IfOk result (λ same. IsTrue same ↔ ((dir : IdValue) (name : List ℕ) (target : IdValue) →
        BindsIn one.now dir name target ↔ BindsIn other.now dir name target)) }
{
    let leads = once_each(leads_of(alloc, one)?);
    let others = once_each(leads_of(alloc, other)?);
    Ok(are_same(&leads, &others))
}

// Where the live entries lead, each from its name in its directory.
fn leads_of(alloc: Global, entries: &Entries) -> Result<Vec<Lead>, Memory>
    ensures { IfOk result (λ leads. (dir target : IdValue) (name : List ℕ) →
        LeadsFrom leads.items dir name target ↔ BindsIn entries.now dir name target) }
{
    let in_order = entries.in_order()?;
    let mut leads = Vec::new(alloc);
    for index in 0..in_order.len() {
        let entry = in_order.at(index);
        if entry.is_live() {
            leads.push(lead_of(entry)?)?;
        }
    }
    Ok(leads)
}

// Where the entry leads.
fn lead_of(entry: &Entry) -> Result<Lead, Memory>
    ensures { IfOk result (λ lead. lead ≡ record {
      place = record { dir = entry.now.dir; name = entry.now.name };
      target = entry.now.target;
    }) }
{
    let name = entry.name.copy()?;
    let dir = entry.dir;
    Ok(Lead {
        place: NameClash { dir, name },
        target: entry.target,
    })
}

// The places from which two neighbours lead, perhaps some of them several times.
fn shared_places(alloc: Global, leads: &[Lead]) -> Result<Vec<NameClash>, Memory>
    requires { IsStrictlySortedBy lead_cmp leads.now }
    ensures { IfOk result (λ places. (place : NameClashValue) →
        Contains places.items place ↔ LeadsToSeveral (LeadsFrom leads.now place.dir) place.name) }
{
    let mut places = Vec::new(alloc);
    for index in 1..leads.len() {
        let lead = &leads[index];
        if have_same_place(&leads[index - 1], lead) {
            places.push(copied(&lead.place)?)?;
        }
    }
    Ok(places)
}

fn have_same_place(a: &Lead, b: &Lead) -> bool
    ensures { IsTrue result ↔ (a.now.place ≡ b.now.place) }
{
    a.place == b.place
}

// The same place once more.
fn copied(place: &NameClash) -> Result<NameClash, Memory>
    ensures { IfOk result (λ copy. copy ≡ place.now) }
{
    let name = place.name.copy()?;
    let dir = place.dir;
    Ok(NameClash { dir, name })
}
