ghost use Rattle.std.specs.Prelude.{◌≡◌, ◌<◌, ◌^◌, ℕ};
ghost use Rattle.ficus_generator.specs.Draws.{next_state, drawn};

use std::marker::Model;

/// Numbers that follow from a seed, drawn one after the other by a linear congruential generator (Lehmer 1951). Clauses
/// see the state, which is below 2^31.
#[derive(Clone, Copy)]
pub(crate) struct Draws {
    state: u32,
}

impl Model for Draws {
    ghost Value = { ℕ };

    ghost view = { λ draws. draws.state };

    ghost invariant = { λ draws. draws.state < 2 ^ 31 };

    ghost inverse = { λ state. record { state = state } };
}

impl Draws {
    /// The draws whose first state is the seed.
    pub(crate) fn new(seed: u32) -> Draws
        requires seed { seed < 2 ^ 31 }
        ensures { result ≡ seed }
    {
        Draws { state: seed }
    }

    /// A number below the bound.
    pub(crate) fn draw(&mut self, bound: u8) -> u8
        requires some { 0 < bound }
        ensures state { self.new ≡ next_state self.old }
        ensures drawn { result ≡ drawn self.old 1 bound }
        ensures within { result < bound }
    {
        self.state = ((u64::from(self.state) * 1_103_515_245 + 12_345) % 2_147_483_648) as u32;
        (self.state / 65_536 % u32::from(bound)) as u8
    }
}
