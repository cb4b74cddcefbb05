//! The fluxes through the faces on a patch's edges.

ghost use Rattle.std.specs.Prelude.{◌≡◌, ◌≢◌, ◌≤◌, ◌<◌, ◌^◌, ◌↔◌, IsTrue, false, true};
ghost use Rattle.amr_box.specs.declared.Cell.{Cell};
ghost use Rattle.amr_box.specs.declared.Face.{Face};
ghost use Rattle.amr_def.specs.Domain.{domain};
ghost use Rattle.amr_patch.specs.Places.{is_edge_face};
ghost use Rattle.amr_patch.specs.Patches.{SameMarks, SameValues, box, flux_in, value_in};
ghost use Rattle.amr_faces.specs.Faces.{IsInDomain, flux_beside, in_reach};
ghost use Rattle.amr_flux.specs.Rooms.{widest};
ghost use Rattle.amr_flux.specs.PatchSides.{Side, includes, side_of};

use crate::room::Room;
use crate::shape::shape_of;
use crate::x_faces::sweep_column;
use crate::y_faces::{set_wanted_columns, sweep_row};
use amr_box::{Axis, Bx, Face};
use amr_def::Problem;
use amr_patch::Patch;

/// PatchSides of a patch: those of the low and the high x faces on its edges, and of the low and the high y faces.
#[derive(Clone, Copy, PartialEq, Eq, Debug)]
pub struct PatchSides {
    pub x_low: bool,
    pub x_high: bool,
    pub y_low: bool,
    pub y_high: bool,
}

impl PatchSides {
    /// None.
    pub const fn none() -> PatchSides
        ensures { (x : Side) → includes result x ≡ false }
    {
        PatchSides {
            x_low: false,
            x_high: false,
            y_low: false,
            y_high: false,
        }
    }

    /// Whether there is none.
    pub fn are_none(self) -> bool
        ensures { IsTrue result ↔ ((x : Side) → includes self x ≡ false) }
    {
        !(self.x_low | self.x_high | self.y_low | self.y_high)
    }

    /// These and the one that a face on the edges of a box lies on.
    pub fn with(self, b: &Bx, f: Face) -> PatchSides
        ensures there { includes result (side_of b.now f) ≡ true }
        ensures others { (x : Side) → x ≢ side_of b.now f → includes result x ≡ includes self x }
    {
        let mut sides = self;
        match f.axis {
            Axis::X if f.x == b.lo().x => sides.x_low = true,
            Axis::X => sides.x_high = true,
            Axis::Y if f.y == b.lo().y => sides.y_low = true,
            Axis::Y => sides.y_high = true,
        }
        sides
    }
}

/// Works out the fluxes through the faces on some sides of a patch of level `l`. They follow from its masses and the frame beside it
/// (donor cell; Berger and Colella 1989). The faces on its other sides keep what they have.
pub fn sweep(p: &Problem, l: u32, patch: &mut Patch, sides: PatchSides, room: &mut Room)
    requires level { l ≤ 4 }
    requires inside { IsInDomain (domain p.now l) (box patch.old) }
    requires small { (c : Cell) → IsTrue (in_reach (box patch.old) c) → value_in patch.old c < 2 ^ 31 }
    ensures fluxes { (f : Face) → IsTrue (is_edge_face (box patch.old) f) → includes sides (side_of (box patch.old) f) ≡ true
        → flux_in patch.new f ≡ flux_beside p.now l patch.old f }
    ensures others { (f : Face) → IsTrue (is_edge_face (box patch.old) f) → includes sides (side_of (box patch.old) f) ≡ false
        → flux_in patch.new f ≡ flux_in patch.old f }
    ensures of_box { box patch.new ≡ box patch.old }
    ensures values { SameValues patch.old patch.new }
    ensures marks { SameMarks patch.old patch.new }
    ensures room { widest room.new ≡ widest room.old }
{
    let shape = shape_of(p, l, &patch.bx, room);
    room.x_share = shape.x;
    room.y_share = shape.y;
    let data = &mut *patch.data;
    sweep_column(p, shape, &data.values, 0, sides.x_low, &mut data.x_low);
    let last = shape.w;
    sweep_column(p, shape, &data.values, last, sides.x_high, &mut data.x_high);
    let across = sides.y_low | sides.y_high;
    set_wanted_columns(p, shape, across, &mut room.columns);
    let factors = &room.columns;
    sweep_row(
        p,
        shape,
        &data.values,
        0,
        sides.y_low,
        factors,
        &mut data.y_low,
    );
    let top = shape.h;
    sweep_row(
        p,
        shape,
        &data.values,
        top,
        sides.y_high,
        factors,
        &mut data.y_high,
    );
}
