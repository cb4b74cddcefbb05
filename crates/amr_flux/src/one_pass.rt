//! The new masses of a patch's cells: in one pass where one Courant number holds along each axis, else by rows of fluxes.

ghost use Rattle.std.specs.Prelude.{◌≡◌, ◌≤◌, []};
ghost use Rattle.amr_flux.specs.NewMasses.{AreUpdated, MayUpdate};
ghost use Rattle.amr_flux.specs.Rooms.{widest};

use crate::exchanges::Border;
use crate::pace::Pace;
use crate::patch_steps::step_cells;
use crate::room::Room;
use crate::shape::Shape;
use crate::update_rows::update_rows;
use amr_def::Problem;

/// Gives each cell what comes in, where one Courant number holds along each axis.
#[inline(always)]
#[tactic(auto, unfolding(crate::specs::Rooms::widest))]
fn update_plain(
    p: &Problem,
    shape: Shape,
    values: &mut [u32],
    border: Border<'_, '_>,
    room: &mut Room,
)
    requires one_x { p.now.shear_x ≡ [] }
    requires one_y { p.now.shear_y ≡ [] }
    requires ready { MayUpdate p.now shape border.marks.now border.sizes.now values.old }
    requires room { shape.w ≤ widest room.old }
    ensures masses { AreUpdated p.now shape border.entry.marks.now border.entry.sizes.now values.old values.new }
    ensures room { widest room.new ≡ widest room.old }
{
    let pace = Pace::of(p, shape.x, shape.y, values);
    let w = shape.w;
    step_cells(pace, shape, border, &mut room.across[0..w], values);
}

/// Gives each cell of a patch what comes in through its faces: by the values on their two sides, and for border faces by the sizes
/// handed in.
///
/// It is inlined into its callers, and all that it calls once a patch: where there are no marks the tests of them are gone.
#[inline(always)]
pub(crate) fn update_cells(
    p: &Problem,
    shape: Shape,
    values: &mut [u32],
    border: Border<'_, '_>,
    room: &mut Room,
)
    requires ready { MayUpdate p.now shape border.marks.now border.sizes.now values.old }
    requires room { shape.w ≤ widest room.old }
    ensures masses { AreUpdated p.now shape border.entry.marks.now border.entry.sizes.now values.old values.new }
    ensures room { widest room.new ≡ widest room.old }
{
    if !p.shear_x.entries().is_empty() {
        update_rows(p, shape, values, border, room);
        return;
    }
    if !p.shear_y.entries().is_empty() {
        update_rows(p, shape, values, border, room);
        return;
    }
    update_plain(p, shape, values, border, room);
}
