//! The new masses of a patch.

ghost use Rattle.std.specs.Prelude.{◌≡◌, ◌≤◌, ◌<◌, ◌^◌, IsTrue, length, pos, ◌+ℤ◌, ◌≤ℤ◌, ◌<ℤ◌};
ghost use Rattle.amr_box.specs.declared.Cell.{Cell};
ghost use Rattle.amr_box.specs.Cells.{holds, width};
ghost use Rattle.amr_def.specs.Domain.{domain};
ghost use Rattle.amr_def.specs.Flux.{net};
ghost use Rattle.amr_patch.specs.Places.{in_frame};
ghost use Rattle.amr_patch.specs.Patches.{SameFluxes, SameMarks, box, mass_in, value_in};
ghost use Rattle.amr_faces.specs.Faces.{IsInDomain, flux_beside, fluxes_by, in_reach, masked_faces};
ghost use Rattle.amr_flux.specs.Rooms.{widest};
ghost use Rattle.amr_faces.specs.Shares.{AreSmall};

use crate::exchanges::Border;
use crate::one_pass::update_cells;
use crate::room::Room;
use crate::shape::shape_of;
use amr_def::Problem;
use amr_patch::Patch;

/// Makes the new masses of a patch of level `l`: each cell gets what flows in through its faces. The fluxes follow from
/// the masses and the frame, but for those through some faces at its high side, which a mask tells: in the places of the patch's
/// marks it is true at the ghost cells beyond them. `border` has the sizes of what flows there, first through the x faces by y, then
/// through the y faces by x. Each of these flows the way of the Courant number at its face.
#[inline(always)]
pub fn update_by(
    p: &Problem,
    l: u32,
    patch: &mut Patch,
    mask: &[bool],
    border: &[u32],
    room: &mut Room,
)
    requires level { l ≤ 4 }
    requires inside { IsInDomain (domain p.now l) (box patch.old) }
    requires border_count { length border.now ≡ length (masked_faces (box patch.old) mask.now) }
    requires small { (c : Cell) → IsTrue (in_reach (box patch.old) c) → value_in patch.old c < 2 ^ 31 }
    requires border_small { AreSmall border.now }
    requires kept { (c : Cell) → IsTrue (holds (box patch.old) c)
        → pos 0 ≤ℤ (pos (mass_in patch.old c) +ℤ net (fluxes_by p.now l patch.old mask.now border.now) c) }
    requires fits { (c : Cell) → IsTrue (holds (box patch.old) c)
        → (pos (mass_in patch.old c) +ℤ net (fluxes_by p.now l patch.old mask.now border.now) c) <ℤ pos (2 ^ 32) }
    requires room { width (box patch.old) ≤ widest room.old }
    ensures masses { (c : Cell) → IsTrue (holds (box patch.old) c)
        → pos (mass_in patch.new c) ≡ pos (mass_in patch.old c) +ℤ net (fluxes_by p.now l patch.old mask.now border.now) c }
    ensures of_box { box patch.new ≡ box patch.old }
    ensures frame { (c : Cell) → IsTrue (in_frame (box patch.old) c) → value_in patch.new c ≡ value_in patch.old c }
    ensures marks { SameMarks patch.old patch.new }
    ensures fluxes { SameFluxes patch.old patch.new }
    ensures room { widest room.new ≡ widest room.old }
{
    let shape = shape_of(p, l, &patch.bx, room);
    room.x_share = shape.x;
    room.y_share = shape.y;
    let data = &mut *patch.data;
    let border = Border {
        marks: mask,
        sizes: border,
    };
    update_cells(p, shape, &mut data.values, border, room);
}

/// Makes the new masses of a patch of level `l` by its own masses and its frame alone: each cell gets what flows in through its
/// faces. What flows through its border faces follows from the frame too, and is what the patches that own them work out.
pub fn update_alone(p: &Problem, l: u32, patch: &mut Patch, room: &mut Room)
    requires level { l ≤ 4 }
    requires inside { IsInDomain (domain p.now l) (box patch.old) }
    requires small { (c : Cell) → IsTrue (in_reach (box patch.old) c) → value_in patch.old c < 2 ^ 31 }
    requires kept { (c : Cell) → IsTrue (holds (box patch.old) c) → pos 0 ≤ℤ (pos (mass_in patch.old c) +ℤ net (flux_beside p.now l patch.old) c) }
    requires fits { (c : Cell) → IsTrue (holds (box patch.old) c) → (pos (mass_in patch.old c) +ℤ net (flux_beside p.now l patch.old) c) <ℤ pos (2 ^ 32) }
    requires room { width (box patch.old) ≤ widest room.old }
    ensures masses { (c : Cell) → IsTrue (holds (box patch.old) c)
        → pos (mass_in patch.new c) ≡ pos (mass_in patch.old c) +ℤ net (flux_beside p.now l patch.old) c }
    ensures of_box { box patch.new ≡ box patch.old }
    ensures frame { (c : Cell) → IsTrue (in_frame (box patch.old) c) → value_in patch.new c ≡ value_in patch.old c }
    ensures marks { SameMarks patch.old patch.new }
    ensures fluxes { SameFluxes patch.old patch.new }
    ensures room { widest room.new ≡ widest room.old }
{
    update_by(p, l, patch, &[], &[], room);
}
