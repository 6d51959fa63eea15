ghost use Rattle.std.specs.Prelude.{◌≡◌, IfOk};

use ficus_ids::{Id, Memory};
use ficus_persistent::Spelled;
use std::alloc::Global;

/// A row of a table: what a look at it shows, with its identifier, and what may become of it without memory.
pub trait Row: Spelled {
    /// What a look shows.
    type Seen;
    /// What may become of a row without memory.
    type Form: Drop;

    ghost use Rattle.ficus_ids.specs.declared.id.Id.{Id as IdValue};

    ghost seen: { Self → Self.Seen };

    ghost formed: { Self.Form → Self → Self.Seen };

    ghost id_of: { Self.Seen → IdValue };

    /// What the row shows.
    fn look(&self) -> &Self::Seen
        ensures { result.now ≡ seen self.now };

    /// What the row shows once this has become of it.
    fn formed<'a>(&'a self, form: &'a Self::Form) -> &'a Self::Seen
        ensures { result.now ≡ formed form.now self.now };

    /// The row that this has become of.
    fn reformed(&self, alloc: Global, form: &Self::Form) -> Result<Self, Memory>
        ensures { IfOk result (λ row. seen row ≡ formed form.now self.now) };

    /// The identifier of what a look shows.
    fn id(item: &Self::Seen) -> Id
        ensures { result ≡ id_of item.now };
}
