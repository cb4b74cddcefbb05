//! The new masses of a patch's cells, row by row.

ghost use Rattle.std.specs.Prelude.{◌≡◌, ℕ, ◌+◌, ◌*◌, ◌<◌, ◌≤◌, ◌^◌, pos, length, slice_index_or};
ghost use Rattle.amr_def.specs.Domain.{columns};
ghost use Rattle.amr_faces.specs.Numbers.{x_number};
ghost use Rattle.amr_flux.specs.Columns.{AreColumns};
ghost use Rattle.amr_flux.specs.NewMasses.{AreSizes, AreUpdated, MayUpdate};
ghost use Rattle.amr_flux.specs.Rooms.{widest};
ghost use Rattle.amr_flux.specs.Tables.{count_below, value, x_marked, x_through, y_through};

use crate::exchanges::Border;
use crate::room::Room;
use crate::rows::update_patch_row;
use crate::shape::{Shape, row_share};
use crate::x_faces::{is_end_marked, set_end, x_row};
use crate::y_faces::{set_columns, set_top, y_row};
use amr_def::Problem;
use amr_faces::Share;

/// Works out the fluxes through the x faces of row `j` and the y faces at its high side into the room: by the values, and for border
/// faces by the sizes handed in, of which `used` are used. Answers how many are used then.
#[tactic(auto, unfolding(crate::specs::Rooms::widest))]
fn row_fluxes(
    p: &Problem,
    shape: Shape,
    share: Share,
    values: &[u32],
    j: usize,
    border: Border<'_, '_>,
    used: usize,
    room: &mut Room,
) -> usize
    requires level { shape.level ≤ 4 }
    requires number { share.number ≡ x_number p.now shape.level (shape.row + j) }
    requires parts { share.parts ≡ p.now.d }
    requires inside { shape.column + shape.w ≤ columns p.now shape.level }
    requires row { j < shape.h }
    requires columns { AreColumns p.now shape.level shape.column shape.w room.old.columns }
    requires value_count { length values.now ≡ (shape.h + 2) * (shape.w + 2) }
    requires room { shape.w ≤ widest room.old }
    requires used { used ≡ count_below (x_marked shape.w border.marks.now) j }
    requires sizes { AreSizes shape.w shape.h border.marks.now border.sizes.now }
    requires here_small { (i : ℕ) → i < shape.w + 2 → value shape.w values.now i (j + 1) < 2 ^ 31 }
    requires above_small { (i : ℕ) → i < shape.w → value shape.w values.now (i + 1) (j + 1 + 1) < 2 ^ 31 }
    ensures used { result ≡ count_below (x_marked shape.w border.entry.marks.now) (j + 1) }
    ensures row { (i : ℕ) → i ≤ shape.w
        → slice_index_or room.new.x.items i (pos 0)
        ≡ x_through p.now shape.level shape.row shape.w border.entry.marks.now border.entry.sizes.now values.now i j }
    ensures above { (i : ℕ) → i < shape.w
        → slice_index_or room.new.high.items i (pos 0)
        ≡ y_through p.now shape.level shape.column shape.w shape.h border.entry.marks.now border.entry.sizes.now values.now i (j + 1) }
    ensures below { room.new.low.items ≡ room.old.low.items }
    ensures columns { room.new.columns ≡ room.old.columns }
{
    x_row(p, shape, share, values, j, &mut room.x);
    let marked = is_end_marked(shape, border.marks, j);
    let used = set_end(
        share.number,
        marked,
        border.sizes,
        used,
        shape.w,
        &mut room.x,
    );
    y_row(p, shape, values, j + 1, &room.columns, &mut room.high);
    set_top(
        p,
        shape,
        j,
        border.marks,
        &border.sizes[used..],
        &mut room.high,
    );
    used
}

/// Gives each cell of a patch what comes in through its faces: by the values on their two sides, and for border faces by the sizes
/// handed in. Rows and columns may have Courant numbers of their own. The fluxes of a row are worked out and used before the next.
#[tactic(auto, unfolding(crate::specs::Rooms::widest))]
pub(crate) fn update_rows(
    p: &Problem,
    shape: Shape,
    values: &mut [u32],
    border: Border<'_, '_>,
    room: &mut Room,
)
    requires ready { MayUpdate p.now shape border.marks.now border.sizes.now values.old }
    requires room { shape.w ≤ widest room.old }
    ensures masses { AreUpdated p.now shape border.entry.marks.now border.entry.sizes.now values.old values.new }
    ensures room { widest room.new ≡ widest room.old }
{
    set_columns(p, shape, &mut room.columns);
    y_row(p, shape, values, 0, &room.columns, &mut room.low);
    let mut share = shape.x;
    let mut used = 0;
    for j in 0..shape.h {
        share = row_share(p, shape, j, share);
        used = row_fluxes(p, shape, share, values, j, border, used, room);
        update_patch_row(shape, j, values, room);
        std::mem::swap(&mut room.low, &mut room.high);
    }
}
