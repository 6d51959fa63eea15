ghost use Rattle.std.specs.Prelude.{◌≡◌, ◌↔◌, ◌≤◌, ◌==◌, ◌||◌, ℕ, false, IsTrue, IsSome, IfSome};
ghost use Rattle.ficus_ids.specs.Marks.{has, IsFull, HasMembersOnly};

use crate::Members;
use std::marker::Model;

/// A set of replica numbers from 1 to 8. Contracts see it as the number in which bit `r - 1` stands for
/// replica `r`, and speak of it by `has`.
#[derive(Clone, Copy, PartialEq, Eq)]
pub struct Marks {
    bits: u8,
}

impl Model for Marks {
    ghost Value = { ℕ };

    ghost view = { λ m. m.bits };

    ghost inverse = { λ n. record { bits = n } };
}

impl Marks {
    /// The empty set.
    pub fn empty() -> Marks
        ensures { (replica : ℕ) → has result replica ≡ false }
    {
        Marks { bits: 0 }
    }

    /// The set with `replica` in it.
    pub fn with(self, replica: u8) -> Marks
        requires at_least { 1 ≤ replica }
        requires at_most { replica ≤ 8 }
        ensures { (other : ℕ) → has result other ≡ (has self other || other == replica) }
    {
        Marks {
            bits: self.bits | 1 << (replica - 1),
        }
    }

    /// Whether `replica` is in the set.
    pub fn has(self, replica: u8) -> bool
        requires at_least { 1 ≤ replica }
        requires at_most { replica ≤ 8 }
        ensures { result ≡ has self replica }
    {
        self.bits >> (replica - 1) & 1 == 1
    }

    /// The replicas that are in one of the two sets.
    pub fn union(self, other: Marks) -> Marks
        ensures { (replica : ℕ) → has result replica ≡ (has self replica || has other replica) }
    {
        Marks {
            bits: self.bits | other.bits,
        }
    }

    /// Whether every member is in the set.
    pub fn is_full(self, members: Members) -> bool
        ensures { IsTrue result ↔ IsFull self members }
    {
        let all = u8::MAX >> (8 - members.count());
        self.bits & all == all
    }

    /// The set as a number in which bit `r - 1` stands for replica `r`.
    pub fn bits(self) -> u8
        ensures { result ≡ self }
    {
        self.bits
    }

    /// The set that the number stands for, or `None` exactly where a bit stands for no member.
    pub fn from_bits(bits: u8, members: Members) -> Option<Marks>
        ensures members { IsSome result ↔ HasMembersOnly bits members }
        ensures value { IfSome result (λ marks. marks ≡ bits) }
    {
        let all = u8::MAX >> (8 - members.count());
        if bits & all == bits {
            Some(Marks { bits })
        } else {
            None
        }
    }
}

/// The law that sets with the same replicas are the same number. It does nothing when it runs.
pub fn same_marks()
    ensures { (a b : ℕ) → ((replica : ℕ) → has a replica ≡ has b replica) → a ≡ b }
{}
