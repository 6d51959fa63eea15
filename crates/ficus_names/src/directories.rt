ghost use Rattle.std.specs.Prelude.{◌≡◌, ◌≢◌, ◌↔◌, ◌∷◌, ◌++◌, [], ℕ, List, IfOk, OnOk};
ghost use Rattle.ficus_names.specs.Binding.{Binds};
ghost use Rattle.ficus_names.specs.Binds.{BindsIn};
ghost use Rattle.ficus_names.specs.Listing.{IsListing};
ghost use Rattle.ficus_ids.specs.declared.id.Id.{Id as IdValue};

use crate::binding::Binding;
use crate::listing::{ShownName, listing_of};
use ficus_entry::Entries;
use ficus_ids::{Id, Memory};
use std::alloc::Global;
use std::collections::BTreeMap;

/// The names of all directories, by directory: what one directory shows is found without a look at the
/// entries of the others.
#[derive(Drop)]
pub struct Directories {
    bindings: BTreeMap<Id, Vec<Binding>>,
}

impl Directories {
    ghost use Rattle.ficus_names.specs.Directories.{bindings_of};

    /// The names that the live entries have in their directories.
    pub fn new(alloc: Global, entries: &Entries) -> Result<Directories, Memory>
        ensures { IfOk result (λ directories. (dir target : IdValue) (name : List ℕ) →
            Binds (bindings_of directories dir) name target ↔ BindsIn entries.now dir name target) }
    {
        let in_order = entries.in_order()?;
        let mut directories = Directories {
            bindings: BTreeMap::new(alloc),
        };
        for index in 0..in_order.len() {
            let entry = in_order.at(index);
            if entry.is_live() {
                directories.add(
                    alloc,
                    entry.dir,
                    Binding {
                        name: entry.name.copy()?,
                        target: entry.target,
                    },
                )?;
            }
        }
        Ok(directories)
    }

    /// How a directory shows its objects, as `shown` does.
    pub fn shown(&self, alloc: Global, dir: Id) -> Result<Vec<ShownName>, Memory>
        ensures { IfOk result (λ names. IsListing (Binds (bindings_of self.now dir)) names.items) }
    {
        listing_of(alloc, self.bindings_in(alloc, dir)?)
    }

    // The names of a directory once more.
    #[tactic(auto, unfolding(ficus_ids::specs::Id::id_cmp))]
    fn bindings_in(&self, alloc: Global, dir: Id) -> Result<Vec<Binding>, Memory>
        ensures { IfOk result (λ bindings. bindings.items ≡ bindings_of self.now dir) }
    {
        match self.bindings.get(&dir) {
            Some(bindings) => copied(alloc, bindings),
            None => Ok(Vec::new(alloc)),
        }
    }

    // Adds a name in a directory. What is left after `Memory` is of no use.
    fn add(&mut self, alloc: Global, dir: Id, binding: Binding) -> Result<(), Memory>
        ensures here { OnOk result (bindings_of self.new dir ≡ bindings_of self.old dir ++ binding ∷ []) }
        ensures others { OnOk result
            ((other : IdValue) → other ≢ dir → bindings_of self.new other ≡ bindings_of self.old other) }
    {
        let mut bindings = self.bindings.remove(&dir).unwrap_or(Vec::new(alloc));
        bindings.push(binding)?;
        self.bindings.insert(dir, bindings)?;
        Ok(())
    }
}

fn copied(alloc: Global, bindings: &[Binding]) -> Result<Vec<Binding>, Memory>
    ensures { IfOk result (λ copies. copies.items ≡ bindings.now) }
{
    let mut copies = Vec::with_capacity(alloc, bindings.len())?;
    for binding in bindings {
        copies.push(Binding {
            name: binding.name.copy()?,
            target: binding.target,
        })?;
    }
    Ok(copies)
}
