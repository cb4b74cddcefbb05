//! The generator of trials.

use std::marker::Model;

/// A linear congruential generator (Knuth, "The Art of Computer Programming", volume 2, 3.3.4: the one of the machine MMIX).
/// It is seen as its state, a number of 64 bits.
#[derive(Drop)]
pub struct Generator {
    state: u64,
}

impl Model for Generator {
    ghost use Rattle.std.specs.Prelude.{ℕ, ◌<◌, ◌^◌};

    ghost Value = { ℕ };

    ghost view = { λ g. g.state };

    ghost invariant = { λ g. g.state < 2 ^ 64 };
}

impl Generator {
    ghost use Rattle.std.specs.Prelude.{◌≡◌, ◌<◌};
    ghost use Rattle.amr_trial.specs.Generator.{draw, moved};

    /// The generator of a trial, whose state begins as the trial's number.
    pub fn of_trial(number: u32) -> Generator
        ensures { result ≡ number }
    {
        Generator {
            state: u64::from(number),
        }
    }

    /// Draws a number below `n`, which is not 0: the state moves, and its high 31 bits are taken modulo `n`.
    #[tactic(auto, unfolding(crate::specs::Generator::moved, crate::specs::Generator::quotient))]
    pub fn draw(&mut self, n: u32) -> u32
        requires some { 0 < n }
        ensures state { self.new ≡ moved self.old }
        ensures number { result ≡ draw self.old 0 n }
        ensures below { result < n }
    {
        self.state = self
            .state
            .wrapping_mul(6_364_136_223_846_793_005)
            .wrapping_add(1_442_695_040_888_963_407);
        (self.state >> 33) as u32 % n
    }
}
