ghost use Rattle.std.specs.Prelude.{◌≡◌, ◌↔◌, ◌≤◌, IsTrue};
ghost use Rattle.ficus_faults.specs.Calls.{Tally, fresh, called, IsNextListed};
ghost use Rattle.ficus_faults.specs.Faults.{Rose, next_fault};

use crate::{Failed, Faults};
use std::marker::Model;

/// The calls of a source, a sink, a link or a disk in memory: which of them fail, how many were made, and how many
/// failed.
#[derive(Drop)]
pub struct Calls {
    fail: Vec<u32>,
    made: u32,
    faults: Faults,
}

impl Model for Calls {
    ghost Value = { Tally };

    ghost view = { λ c. record { fail = c.fail.items; made = c.made; faults = c.faults } };
}

impl Calls {
    /// No call was made. `fail` lists the numbers of those that fail, counted from 1.
    pub fn new(fail: Vec<u32>) -> Calls
        ensures { result ≡ fresh fail.items }
    {
        Calls {
            fail,
            made: 0,
            faults: Faults::new(),
        }
    }

    /// Counts a call, and says whether it is one that fails.
    pub fn next(&mut self) -> bool
        ensures counted { self.new ≡ called self.old }
        ensures listed { IsTrue result ↔ IsNextListed self.old }
    {
        self.made = self.made.saturating_add(1);
        self.fail.contains(&self.made)
    }

    /// Counts that this call failed, and gives the error to answer.
    pub fn raise(&mut self) -> Failed
        ensures counted { self.new ≡ record self.old { faults = next_fault self.old.faults } }
        ensures rose { Rose self.old.faults self.new.faults }
        ensures kept { self.old.faults ≤ self.new.faults }
    {
        self.faults.raise()
    }
}
