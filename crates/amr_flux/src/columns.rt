//! What the masses beside the y faces of a patch are multiplied by, where each column has a Courant number of its own.

ghost use Rattle.std.specs.Prelude.{◌≡◌, length};

use amr_faces::{Factors, are_near};

/// The factors of the columns that were worked on last: for masses at the low side of y faces, and at the high side.
#[derive(Drop)]
pub(crate) struct Columns {
    pub(crate) low: Vec<u32>,
    pub(crate) high: Vec<u32>,
    /// Below which masses they give the flux; 0 where there are none.
    pub(crate) limit: u32,
    pub ghost high_count: { length high.items ≡ length low.items },
}

impl Columns {
    ghost use Rattle.std.specs.Prelude.{◌<◌, IsTrue, slice_index};
    ghost use Rattle.amr_faces.specs.Shares.{AreBelow, AreSmall};

    /// Those of column `i`.
    #[inline(always)]
    pub(crate) fn at(&self, i: usize) -> Factors
        requires { i < length self.now.low.items }
        ensures low { result.low ≡ slice_index self.now.low.items i }
        ensures high { result.high ≡ slice_index self.now.high.items i }
    {
        Factors {
            low: self.low[i],
            high: self.high[i],
        }
    }

    /// Whether they give the fluxes between all of these masses.
    #[tactic(auto, using(amr_faces::proofs::Reciprocals::below_limit))]
    pub(crate) fn serve(&self, low: &[u32], high: &[u32]) -> bool
        requires low_small { AreSmall low.now }
        requires high_small { AreSmall high.now }
        ensures some { IsTrue result → 0 < self.now.limit }
        ensures low { IsTrue result → AreBelow self.now.limit low.now }
        ensures high { IsTrue result → AreBelow self.now.limit high.now }
    {
        if self.limit == 0 {
            return false;
        }
        if are_near(self.limit, low) {
            return are_near(self.limit, high);
        }
        false
    }
}
