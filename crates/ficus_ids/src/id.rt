ghost use Rattle.std.specs.Prelude.{◌≡◌, Some};
ghost use Rattle.ficus_ids.specs.Id.{id_cmp, id_text};

use std::fmt;

/// The identifier of an entry and of the object that it made: the replica that issued it, from 1 to 8, and
/// the number of the update there, from 1. Identifiers need no coordination, since no two replicas issue
/// the same one (Guy 1991). They are ordered by replica, then by number.
#[derive(Clone, Copy, PartialEq, Eq, PartialOrd, Ord)]
pub struct Id {
    pub replica: u8,
    pub number: u32,
}

/// The directory in which every volume begins.
pub const ROOT: Id = Id {
    replica: 0,
    number: 0,
};

/// The pseudo directory of discarded files.
pub const ATTIC: Id = Id {
    replica: 0,
    number: 1,
};

/// Written `r.k`.
impl fmt::Display for Id {
    ghost output = { λ id. Some (id_text id) };

    fn fmt<W: fmt::Write>(&self, f: &mut fmt::Formatter<W>) -> fmt::Result {
        let replica = self.replica;
        let number = self.number;
        write!(f, "{replica}.{number}")
    }
}

/// The law that identifiers are ordered by replica, then by number. It does nothing when it runs.
pub fn id_order()
    ensures { (a b : Id) → ⟦<Id as Ord>⟧.cmp a b ≡ id_cmp a b }
{}

/// The law that the root is `0.0` and the attic `0.1`. No replica issues them, since replicas are numbered from 1.
/// It does nothing when it runs.
pub fn pseudo_ids()
    ensures root { ROOT ≡ record { replica = 0; number = 0 } }
    ensures attic { ATTIC ≡ record { replica = 0; number = 1 } }
{}
