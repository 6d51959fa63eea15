ghost use Rattle.std.specs.Prelude.{◌≡◌, ◌↔◌, ◌≤◌, ℕ, IsTrue, IsSome, IfSome};
ghost use Rattle.ficus_ids.specs.Members.{IsCount, IsMember};

use std::marker::Model;

/// How many replicas a volume has, from 2 to 8. They are numbered from 1.
#[derive(Clone, Copy, PartialEq, Eq)]
pub struct Members {
    count: u8,
}

impl Model for Members {
    ghost Value = { ℕ };

    ghost view = { λ m. m.count };

    ghost invariant = { λ m. IsCount m.count };

    ghost inverse = { λ n. record { count = n } };
}

impl Members {
    /// `None` exactly where the count isn't from 2 to 8.
    pub fn new(count: u8) -> Option<Members>
        ensures valid { IsSome result ↔ IsCount count }
        ensures value { IfSome result (λ members. members ≡ count) }
    {
        if (2..=8).contains(&count) {
            Some(Members { count })
        } else {
            None
        }
    }

    /// How many there are.
    pub fn count(self) -> u8
        ensures value { result ≡ self }
        ensures valid { IsCount self }
    {
        self.count
    }

    /// Whether `replica` is a member.
    pub fn has(self, replica: u8) -> bool
        ensures { IsTrue result ↔ IsMember self replica }
    {
        1 <= replica && replica <= self.count
    }
}
