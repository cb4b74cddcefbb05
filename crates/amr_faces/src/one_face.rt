//! What flows through one face of a patch.

ghost use Rattle.std.specs.Prelude.{◌≡◌, ◌≤◌, ◌<◌, ◌^◌, unsigned_abs, pos, IsTrue};
ghost use Rattle.amr_box.specs.Cells.{IsNear, holds};
ghost use Rattle.amr_def.specs.Domain.{domain};
ghost use Rattle.amr_def.specs.Flux.{courant, face, flow, low_cell};
ghost use Rattle.amr_patch.specs.Patches.{box, value_in};
ghost use Rattle.amr_patch.specs.Places.{grown, is_face_of};
ghost use Rattle.amr_faces.specs.Faces.{IsInDomain, flux_beside};
ghost use Rattle.amr_faces.specs.Shares.{share_of};

use crate::share::Share;
use amr_box::{Axis, Bx, Cell, Face, distance};
use amr_def::Problem;
use amr_patch::Patch;

/// The size of the flow out of a cell of this mass. A division is made for masses of 2^31 and more alone.
#[tactic(auto, using(crate::proofs::Reciprocals::share_within, crate::proofs::FaceSides::product_fits))]
fn size_of(share: Share, mass: u32) -> u32
    ensures { result ≡ share_of share.number share.parts mass }
{
    if mass < 2147483648 {
        return share.size(mass);
    }
    (u64::from(share.number.unsigned_abs()) * u64::from(mass) / u64::from(share.parts)) as u32
}

/// The flux through a face between cells of these values.
fn flow_between(share: Share, low: u32, high: u32) -> i64
    ensures value { result ≡ flow share.number share.parts low high }
    ensures small { unsigned_abs result < 2 ^ 32 }
{
    if share.number < 0 {
        -i64::from(size_of(share, high))
    } else {
        i64::from(size_of(share, low))
    }
}

/// The cell on the low side of a face of a box.
fn low_cell(b: &Bx, f: Face) -> Cell
    requires near { IsNear b.now }
    requires of_box { IsTrue (is_face_of b.now f) }
    ensures { result ≡ low_cell f }
{
    match f.axis {
        Axis::X => Cell { x: f.x - 1, y: f.y },
        Axis::Y => Cell { x: f.x, y: f.y - 1 },
    }
}

/// The value of a cell of a patch or of its frame.
fn value_of(patch: &Patch, c: Cell) -> u32
    requires { IsTrue (holds (grown (box patch.now)) c) }
    ensures { result ≡ value_in patch.now c }
{
    let row = patch.row_with_frame(c.y);
    row[distance(patch.bx.lo().x - 1, c.x)]
}

/// The Courant number, times `d`, at a face of a box of level `l`.
fn courant(p: &Problem, l: u32, b: &Bx, f: Face) -> i32
    requires level { l ≤ 4 }
    requires near { IsNear b.now }
    requires inside { IsInDomain (domain p.now l) b.now }
    requires of_box { IsTrue (is_face_of b.now f) }
    ensures value { result ≡ courant p.now l f }
    ensures slow { unsigned_abs result ≤ p.now.d }
{
    match f.axis {
        Axis::X => p.x_courant(l, f.y as u32),
        Axis::Y => p.y_courant(l, f.x as u32),
    }
}

/// The share at the Courant number of the first row, or for y faces of the first column: that of all faces along the axis where
/// there is no shear.
#[tactic(auto, using(crate::proofs::Numbers::x_slow, crate::proofs::Numbers::y_slow))]
pub fn first_share(p: &Problem, axis: Axis) -> Share
    ensures number { result.number ≡ courant p.now 0 (face axis (pos 0) (pos 0)) }
    ensures parts { result.parts ≡ p.now.d }
{
    match axis {
        Axis::X => Share::make(p.x_courant(0, 0), p.d),
        Axis::Y => Share::make(p.y_courant(0, 0), p.d),
    }
}

/// What flows through a face of a cell of a patch of level `l`, above 0 towards the high side. It follows from the
/// values on its two sides, in the patch or in its frame (donor cell; Berger and Colella 1989). The face may lie inside
/// the patch or on its edge, and may belong to another patch. Before an update this is what flows in the level itself,
/// where the frame is filled. It takes no memory, and makes no division where the Courant number is that of the share handed in.
pub fn face_flux(p: &Problem, l: u32, patch: &Patch, f: Face, last: Share) -> i64
    requires level { l ≤ 4 }
    requires inside { IsInDomain (domain p.now l) (box patch.now) }
    requires of_box { IsTrue (is_face_of (box patch.now) f) }
    ensures value { result ≡ flux_beside p.now l patch.now f }
    ensures small { unsigned_abs result < 2 ^ 32 }
{
    let low = value_of(patch, low_cell(&patch.bx, f));
    let high = value_of(patch, Cell { x: f.x, y: f.y });
    let share = last.with(courant(p, l, &patch.bx, f), p.d);
    flow_between(share, low, high)
}
