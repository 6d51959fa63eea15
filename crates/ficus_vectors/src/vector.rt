ghost use Rattle.std.specs.Prelude.{◌≡◌, ◌↔◌, ◌≤◌, IfSome, IsTrue, IsNone};
ghost use Rattle.ficus_vectors.specs.Vector.{count_in, count_of, vector_of, no_counts, join, bump, vector_cmp, Covers, IsOver, AreApart};

use crate::Standing;
use std::cmp::Ordering;
use std::marker::Model;

/// A count for each replica from 1 to 8: how many of its versions lie in the past of a version, itself with them.
/// Contracts see it as the counts of the replicas. Source: Parker and
/// others 1983.
#[derive(Clone, Copy, PartialEq, Eq)]
pub struct Vector {
    counts: [u32; 8],
}

impl Model for Vector {
    ghost use Rattle.std.specs.Prelude.{◌≡◌, length};
    ghost use Rattle.ficus_vectors.specs.Vector.{Counts, in_order, count_in, vector_of};
    ghost use Rattle.ficus_vectors.specs.VectorLaws.{same_eight};

    ghost Value = { Counts };

    ghost view = { λ v. vector_of (count_in v.counts) };

    ghost invariant = { λ v. length v.counts ≡ 8 };

    ghost inverse = { λ counts. record { counts = in_order counts } };

    ghost inverse_ok = { λ v long i. record { counts = same_eight v.counts long i } };
}

impl Vector {
    /// All counts are 0.
    #[tactic(auto, unfolding(crate::specs::Vector::no_counts))]
    pub fn zero() -> Vector
        ensures { result ≡ no_counts }
    {
        Vector { counts: [0; 8] }
    }

    /// With these counts, that of replica 1 first.
    pub fn from_counts(counts: [u32; 8]) -> Vector
        ensures { result ≡ vector_of (count_in counts) }
    {
        Vector { counts }
    }

    /// The count of a replica from 1 to 8.
    pub fn count(self, replica: u8) -> u32
        requires at_least { 1 ≤ replica }
        requires at_most { replica ≤ 8 }
        ensures { result ≡ count_of self replica }
    {
        self.counts[replica as usize - 1]
    }

    /// One more for a replica from 1 to 8, or `None` exactly where its count is the greatest.
    #[tactic(auto, unfolding(crate::specs::Vector::bump))]
    pub fn bump(self, replica: u8) -> Option<Vector>
        requires at_least { 1 ≤ replica }
        requires at_most { replica ≤ 8 }
        ensures none { IsNone result ↔ (count_of self replica ≡ 4294967295) }
        ensures bumped { IfSome result (λ vector. vector ≡ bump replica self) }
    {
        let index = replica as usize - 1;
        let count = self.counts[index].checked_add(1)?;
        let mut counts = self.counts;
        counts[index] = count;
        Some(Vector { counts })
    }

    /// For each replica the greater count.
    pub fn join(self, other: Vector) -> Vector
        ensures { result ≡ join self other }
    {
        let mut counts = self.counts;
        for i in 0..8usize {
            counts[i] = counts[i].max(other.counts[i]);
        }
        Vector { counts }
    }

    /// Whether each count is at least the other's.
    pub fn covers(self, other: Vector) -> bool
        ensures { IsTrue result ↔ Covers self other }
    {
        for i in 0..8usize {
            if self.counts[i] < other.counts[i] {
                return false;
            }
        }
        true
    }

    /// How it stands to another.
    pub fn compare(self, other: Vector) -> Standing
        ensures equal { (result ≡ Standing.Equal) ↔ (self ≡ other) }
        ensures under { (result ≡ Standing.Under) ↔ IsOver other self }
        ensures over { (result ≡ Standing.Over) ↔ IsOver self other }
        ensures apart { (result ≡ Standing.Apart) ↔ AreApart self other }
    {
        match (self.covers(other), other.covers(self)) {
            (true, true) => Standing::Equal,
            (true, false) => Standing::Over,
            (false, true) => Standing::Under,
            (false, false) => Standing::Apart,
        }
    }

    /// Which of two vectors comes first: the lesser in the first count that differs, from replica 1 upwards.
    pub fn order(self, other: Vector) -> Ordering
        ensures { result ≡ vector_cmp self other }
    {
        self.counts.cmp(&other.counts)
    }
}
