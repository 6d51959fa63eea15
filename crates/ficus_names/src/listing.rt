ghost use Rattle.std.specs.Prelude.{◌≡◌, ◌↔◌, ℕ, List, IfOk};
ghost use Rattle.std.specs.List.Sorted.{IsStrictlySortedBy};
ghost use Rattle.ficus_names.specs.Binding.{Binds, binding_cmp};
ghost use Rattle.ficus_names.specs.Binds.{BindsIn};
ghost use Rattle.ficus_names.specs.Listing.{IsListing};
ghost use Rattle.ficus_names.specs.declared.listing.ShownName.{ShownName as Shown};
ghost use Rattle.ficus_entry.specs.declared.entry.Entry.{Entry};
ghost use Rattle.ficus_ids.specs.declared.id.Id.{Id as IdValue};

use crate::binding::{Binding, bindings_in, is_shared};
use crate::once::once_each;
use ficus_entry::Entries;
use ficus_ids::{Id, Kind, Memory, Name};
use std::alloc::Global;

/// An object as its directory shows it.
#[derive(Drop)]
pub struct ShownName {
    pub name: Name,
    pub target: Id,
    /// The name leads to several objects, so each is shown with its identifier.
    pub suffixed: bool,
}

/// A line of a listing.
#[derive(Drop)]
pub struct Line {
    /// The directory that is shown.
    pub dir: Id,
    pub shown: ShownName,
    /// What the object is.
    pub kind: Kind,
    /// The object is a file in conflict.
    pub conflict: bool,
}

/// How the live entries of a directory show their objects: one item per pair of name and target, by the
/// bytes of the name, then by target.
pub fn shown(alloc: Global, entries: &Entries, dir: Id) -> Result<Vec<ShownName>, Memory>
    ensures { IfOk result (λ names. IsListing (BindsIn entries.now dir) names.items) }
{
    listing_of(alloc, bindings_in(alloc, entries, dir)?)
}

/// How what is bound is shown, each name with each of its objects once.
pub(crate) fn listing_of(alloc: Global, bindings: Vec<Binding>) -> Result<Vec<ShownName>, Memory>
    ensures { IfOk result (λ names. IsListing (Binds bindings.items) names.items) }
{
    let bindings = once_each(bindings);
    listed(alloc, &bindings)
}

fn listed(alloc: Global, bindings: &[Binding]) -> Result<Vec<ShownName>, Memory>
    requires { IsStrictlySortedBy binding_cmp bindings.now }
    ensures { IfOk result (λ names. IsListing (Binds bindings.now) names.items) }
{
    let mut names = Vec::with_capacity(alloc, bindings.len())?;
    for (index, binding) in bindings.iter().enumerate() {
        names.push(ShownName {
            name: binding.name.copy()?,
            target: binding.target,
            suffixed: is_shared(bindings, index),
        })?;
    }
    Ok(names)
}

/// The law that directories in which the same names lead to the same objects are shown alike. It does
/// nothing when it runs.
pub fn same_listing()
    ensures { (entries others : List Entry) (dir other_dir : IdValue) (items other_items : List Shown) →
        ((name : List ℕ) (target : IdValue) →
        BindsIn entries dir name target ↔ BindsIn others other_dir name target) →
        IsListing (BindsIn entries dir) items →
        IsListing (BindsIn others other_dir) other_items → items ≡ other_items }
{}
