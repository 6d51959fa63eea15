ghost use Rattle.std.specs.Prelude.{◌≡◌, ◌≤◌, ℕ};
ghost use Rattle.ficus_faults.specs.Faults.{Rose, next_fault};

use crate::Failed;
use std::marker::Model;

/// A count of faults, which stands still at 2^64 - 1.
#[derive(Drop)]
pub struct Faults {
    count: u64,
}

impl Model for Faults {
    ghost Value = { ℕ };

    ghost view = { λ f. f.count };
}

impl Faults {
    /// No fault.
    pub fn new() -> Faults
        ensures { result ≡ 0 }
    {
        Faults { count: 0 }
    }

    /// Counts one more fault, and gives the error to answer.
    pub fn raise(&mut self) -> Failed
        ensures counted { self.new ≡ next_fault self.old }
        ensures rose { Rose self.old self.new }
        ensures kept { self.old ≤ self.new }
    {
        self.count = self.count.saturating_add(1);
        Failed
    }
}
