ghost use Rattle.std.specs.Prelude.{◌≡◌, ◌≤◌, [], List, ℕ, Some, IfOk, IsErrOf, length};
ghost use Rattle.ficus_keeper.specs.Framed.{body_in, head_size};
ghost use Rattle.ficus_keeper.specs.Kept.{kept_of};
ghost use Rattle.ficus_durable_state.specs.Saved.{FitsImage};
ghost use Rattle.ficus_durable_state.specs.declared.saved.Saved.{Saved as SavedValue};
ghost use Rattle.ficus_stable_storage.specs.Calls.{CommitsState, MakesState, Opens, OpensAnew, Prepares};
ghost use Rattle.ficus_stable_storage.specs.Leads.Holds.{Holds};
ghost use Rattle.ficus_stable_storage.specs.Stable.{IsPrepared, MayFollow};

use crate::framing::frame_wanted;
use crate::reading::read_back;
use ficus_disk::{Disk, Pair};
use ficus_durable_state::Saved;
use ficus_faults::Failed;
use ficus_ids::Memory;
use ficus_image::encode_image;
use ficus_keeper::{Keep, MakeFault, Opened, StoreFault, body_size, reopen};
use std::alloc::Global;

/// A keeper, with the image that it saves next. Whatever stops a save, the disks hold what was saved before it, or what
/// it saves.
#[derive(Drop)]
pub struct Stable<K> {
    keeper: K,
    // A frame of what the next commit saves, an image or a record, built before it.
    framed: Vec<u8>,
}

/// What a pair of disks holds, and the keeper that saves what follows it.
#[derive(Drop)]
pub struct Recovered<K> {
    pub stable: Stable<K>,
    pub saved: Saved,
}

impl<K: Keep + Drop> Stable<K> {
    /// Saves what a replica begins with on two empty disks.
    pub fn make<D: Disk>(alloc: Global, disks: &mut Pair<D>, saved: &Saved) -> Result<(), MakeFault>
        requires fits { FitsImage saved.now }
        requires first { saved.now.generation ≡ 0 }
        requires empty_a { D.tells → D.seen disks.old.a ≡ [] }
        requires empty_b { D.tells → D.seen disks.old.b ≡ [] }
        ensures { MakesState K.Keep D.Disk saved.now disks.old disks.new result }
    {
        let image = encode_image(alloc, saved)?;
        K::make(alloc, disks, &image)
    }

    /// Reads what the disks hold, and writes nothing. `NoImage` comes exactly where nothing is kept, or what is kept is
    /// no image of that generation.
    pub fn open<D: Disk>(alloc: Global, disks: &mut Pair<D>) -> Result<Recovered<K>, StoreFault>
        ensures { Opens K.Keep D.Disk disks.old disks.new result }
    {
        let (keeper, opened) = K::open(alloc, disks)?;
        recover(alloc, keeper, opened)
    }

    /// Opens both disks anew, and reads what they then hold.
    pub fn reopen<D: Disk>(alloc: Global, disks: &mut Pair<D>) -> Result<Recovered<K>, StoreFault>
        ensures { OpensAnew K.Keep D.Disk disks.old disks.new result }
    {
        let (keeper, opened) = reopen::<K, D>(alloc, disks)?;
        recover(alloc, keeper, opened)
    }

    /// Holds what the keeper wants: the image of what is saved next, which it builds, or the record that leads to it,
    /// out of its frame. Takes all memory for it. What the disks hold is as before, also where memory is refused.
    pub fn prepare<D: Disk>(
        &mut self,
        disks: &mut Pair<D>,
        next: &Saved,
        noted: Vec<u8>,
    ) -> Result<(), Memory>
        requires fits { FitsImage next.now }
        requires head { head_size ≤ length noted.items }
        ensures { Prepares K.Keep D.Disk next.now (body_in noted.items) self.old self.new disks.old disks.new result }
    {
        frame_wanted(&mut self.framed, self.keeper.wants(), next, noted)?;
        self.keeper.reserve(disks, body_size(&self.framed))
    }

    /// Saves what was prepared, in place of what the disks hold. Takes no memory. After one that fails nothing is
    /// promised of the keeper, and one of the two is held.
    pub fn commit<D: Disk>(&mut self, disks: &mut Pair<D>, next: &Saved) -> Result<(), Failed>
        requires { (body : List ℕ)
            × IsPrepared K.wants_image K.Allows K.size_of D.room self.old disks.old next.now body
            × (D.tells → MayFollow K.kept K.fits D.seen D.may_leave self.old disks.old next.now body) }
        ensures { CommitsState K.Keep D.Disk next.now self.new disks.old disks.new result }
    {
        self.keeper
            .commit_framed(disks, next.generation, &mut self.framed)
    }
}

// What was opened, and its keeper.
fn recover<K: Keep + Drop>(
    alloc: Global,
    keeper: K,
    opened: Opened,
) -> Result<Recovered<K>, StoreFault>
    ensures fits { IfOk result (λ found. FitsImage found.saved) }
    ensures keeper { IfOk result (λ found. found.stable.keeper ≡ keeper) }
    ensures holds { IfOk result (λ found. Holds (Some (kept_of opened)) found.saved) }
    ensures none { IsErrOf result StoreFault.NoImage → (saved : SavedValue) → Holds (Some (kept_of opened)) saved → ⊥ }
    ensures never { IsErrOf result StoreFault.Failed → ⊥ }
{
    let saved = read_back(alloc, opened)?;
    let stable = Stable {
        keeper,
        framed: Vec::new(alloc),
    };
    Ok(Recovered { stable, saved })
}
