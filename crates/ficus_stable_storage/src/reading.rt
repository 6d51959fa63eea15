ghost use Rattle.std.specs.Prelude.{◌≡◌, ◌≢◌, ◌↔◌, Ok, Some, IfOk, IsErrOf};
ghost use Rattle.ficus_keeper.specs.Kept.{kept_of};
ghost use Rattle.ficus_stable_storage.specs.Leads.Holds.{Holds};
ghost use Rattle.ficus_durable_state.specs.Saved.{FitsImage};
ghost use Rattle.ficus_durable_state.specs.declared.saved.Saved.{Saved as SavedValue};
ghost use Rattle.ficus_stable_storage.specs.Reading.{IsSpelledIn};

use crate::leads::led_by;
use ficus_durable_state::Saved;
use ficus_image::{ImageFault, decode_image};
use ficus_keeper::{Opened, StoreFault};
use ficus_record::RecordFault;
use std::alloc::Global;

/// What a keeper found: what its image spells, with its records applied, one after the other. `NoImage` comes exactly
/// where what it found holds nothing that a replica may save. What it found is given up meanwhile.
pub(crate) fn read_back(alloc: Global, opened: Opened) -> Result<Saved, StoreFault>
    ensures fits { IfOk result (λ saved. FitsImage saved) }
    ensures holds { IfOk result (λ saved. Holds (Some (kept_of opened)) saved) }
    ensures none { IsErrOf result StoreFault.NoImage → (saved : SavedValue) → Holds (Some (kept_of opened)) saved → ⊥ }
    ensures never { IsErrOf result StoreFault.Failed → ⊥ }
{
    let base = read_image(alloc, &opened)?;
    drop(opened.image);
    match led_by(alloc, base, opened.records.into_vec()) {
        Ok(saved) => Ok(saved),
        Err(fault) => Err(told(fault)),
    }
}

// What the image spells, where it is of the generation that is told with it.
fn read_image(alloc: Global, opened: &Opened) -> Result<Saved, StoreFault>
    ensures fits { IfOk result (λ base. FitsImage base) }
    ensures spelled { IfOk result (λ base. IsSpelledIn opened.now base) }
    ensures none { IsErrOf result StoreFault.NoImage → (base : SavedValue) → IsSpelledIn opened.now base → ⊥ }
    ensures never { IsErrOf result StoreFault.Failed → ⊥ }
{
    of_generation(decode_image(alloc, opened.image.items()), opened.generation)
}

// What was decoded, where it is of this generation.
fn of_generation(decoded: Result<Saved, ImageFault>, generation: u64) -> Result<Saved, StoreFault>
    ensures found { IfOk result (λ base. (decoded ≡ Ok base) × (base.generation ≡ generation)) }
    ensures none { IsErrOf result StoreFault.NoImage → IfOk decoded (λ base. base.generation ≢ generation) }
    ensures memory { IsErrOf result StoreFault.Memory ↔ IsErrOf decoded ImageFault.Memory }
    ensures never { IsErrOf result StoreFault.Failed → ⊥ }
{
    match decoded {
        Ok(base) => {
            if base.generation == generation {
                Ok(base)
            } else {
                Err(StoreFault::NoImage)
            }
        }
        Err(ImageFault::NotImage) => Err(StoreFault::NoImage),
        Err(ImageFault::Memory) => Err(StoreFault::Memory),
    }
}

// Bytes that are no record, and a record that doesn't fit, are told as an image that isn't one; want of memory, and
// nothing else, as what it is.
fn told(fault: RecordFault) -> StoreFault
    ensures memory { result ≡ StoreFault.Memory ↔ fault ≡ RecordFault.Memory }
    ensures never { result ≡ StoreFault.Failed → ⊥ }
{
    match fault {
        RecordFault::NotRecord | RecordFault::Unfit => StoreFault::NoImage,
        RecordFault::Memory => StoreFault::Memory,
    }
}
