//! How fast masses flow out of the cells of a patch, where one Courant number holds along each axis.

ghost use Rattle.std.specs.Prelude.{◌≡◌, ◌+◌, ◌≤◌, unsigned_abs};

use amr_def::Problem;
use amr_faces::{Share, are_near};

/// The shares of a mass that flow out along both axes. They add up to at most the mass.
#[derive(Clone, Copy, Debug)]
pub(crate) struct Pace {
    pub(crate) x: Share,
    pub(crate) y: Share,
    /// Whether one product gives them.
    pub(crate) near: bool,
    pub ghost same_parts: { y.parts ≡ x.parts },
    pub ghost stable: { unsigned_abs x.number + unsigned_abs y.number ≤ x.parts },
}

impl Pace {
    ghost use Rattle.std.specs.Prelude.{ℕ, ◌<◌, ◌^◌, [], length, slice_index};
    ghost use Rattle.amr_flux.specs.Paces.{IsFit, x_share, y_share};

    /// How much of a mass flows out along the x axis.
    #[inline(always)]
    pub(crate) fn along(&self, mass: u32) -> u32
        requires { IsFit self.now mass }
        ensures value { result ≡ x_share self.now mass }
        ensures bound { result ≤ mass }
    {
        self.x.size_by(self.near, mass)
    }

    /// How much of a mass flows out along the y axis.
    #[inline(always)]
    pub(crate) fn across(&self, mass: u32) -> u32
        requires { IsFit self.now mass }
        ensures value { result ≡ y_share self.now mass }
        ensures bound { result ≤ mass }
    {
        self.y.size_by(self.near, mass)
    }

    /// The pace at a problem's Courant numbers, from the shares that were used last. Whether one product gives the shares is found
    /// by one look at all masses of the patch, if there is a limit at all.
    #[tactic(auto, using(crate::proofs::Paces::plain_stable, amr_faces::proofs::Numbers::plain_x_slow, crate::proofs::Paces::plain_y_slow))]
    pub(crate) fn of(p: &Problem, x: Share, y: Share, values: &[u32]) -> Pace
        requires one_x { p.now.shear_x ≡ [] }
        requires one_y { p.now.shear_y ≡ [] }
        ensures x_number { result.x.number ≡ p.now.cx }
        ensures x_parts { result.x.parts ≡ p.now.d }
        ensures y_number { result.y.number ≡ p.now.cy }
        ensures y_parts { result.y.parts ≡ p.now.d }
        ensures fit { (k : ℕ) → k < length values.now → slice_index values.now k < 2 ^ 31 → IsFit result (slice_index values.now k) }
    {
        let x = x.with(p.cx, p.d);
        let y = y.with(p.cy, p.d);
        let near = are_near(x.limit.min(y.limit), values);
        Pace { x, y, near }
    }
}
