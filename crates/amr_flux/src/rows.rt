//! Fluxes and new masses, a row at a time.

ghost use Rattle.std.specs.Prelude.{◌≡◌, ◌≢◌, neg_ℤ, ℕ, ◌+◌, ◌*◌, ◌<◌, ◌≤◌, length, slice_index, slice_index_or, pos, negsuc, ◌+ℤ◌, ◌-ℤ◌, ◌≤ℤ◌, ◌<ℤ◌, ◌^◌};
ghost use Rattle.amr_def.specs.Flux.{flow};
ghost use Rattle.amr_flux.specs.Rooms.{widest};
ghost use Rattle.amr_flux.specs.Rows.{AreSmallFlows, net_in_row};
ghost use Rattle.amr_faces.specs.Shares.{AreSmall, share_of};
ghost use Rattle.amr_flux.specs.Tables.{value};

use crate::room::Room;
use crate::shape::Shape;
use amr_faces::Share;

/// The sizes of the flows out of these cells, place by place.
fn sizes(share: Share, cells: &[u32], sizes: &mut [i32])
    requires count { length cells.now ≡ length sizes.old }
    requires small { AreSmall cells.now }
    ensures { (k : ℕ) → k < length sizes.old → slice_index_or sizes.new k (pos 0) ≡ pos (share_of share.number share.parts (slice_index cells.now k)) }
{
    if share.is_near(cells) {
        for k in 0..sizes.len() {
            sizes[k] = share.near_size(cells[k]) as i32;
        }
    } else {
        for i in 0..sizes.len() {
            sizes[i] = share.size(cells[i]) as i32;
        }
    }
}

/// Turns flows round.
fn turn(flows: &mut [i32])
    requires { AreSmallFlows flows.old }
    ensures { (k : ℕ) → k < length flows.old → slice_index_or flows.new k (pos 0) ≡ neg_ℤ (slice_index_or flows.old k (pos 0)) }
{
    for k in 0..flows.len() {
        flows[k] = -flows[k];
    }
}

/// The fluxes through faces between these cells, place by place.
pub(crate) fn face_fluxes(share: Share, low: &[u32], high: &[u32], fluxes: &mut [i32])
    requires low_count { length low.now ≡ length fluxes.old }
    requires high_count { length high.now ≡ length fluxes.old }
    requires low_small { AreSmall low.now }
    requires high_small { AreSmall high.now }
    ensures { (k : ℕ) → k < length fluxes.old
        → slice_index_or fluxes.new k (pos 0) ≡ flow share.number share.parts (slice_index low.now k) (slice_index high.now k) }
{
    if share.number < 0 {
        sizes(share, high, fluxes);
        turn(fluxes);
    } else {
        sizes(share, low, fluxes);
    }
}

/// What comes into a cell along an axis, by the fluxes through its two faces.
#[inline(always)]
fn net_along(low: i32, high: i32) -> i64
    ensures value { result ≡ low -ℤ high }
    ensures least { negsuc (2 ^ 33) <ℤ result }
    ensures most { result <ℤ pos (2 ^ 33) }
{
    i64::from(low) - i64::from(high)
}

/// What comes into a cell through its faces.
#[inline(always)]
fn net_inflow(west: i32, east: i32, south: i32, north: i32) -> i64
    ensures value { result ≡ (west -ℤ east) +ℤ (south -ℤ north) }
    ensures least { negsuc (2 ^ 40) <ℤ result }
    ensures most { result <ℤ pos (2 ^ 40) }
{
    net_along(west, east) + net_along(south, north)
}

/// A mass and its net inflow, by the fluxes through the cell's faces.
#[inline(always)]
pub(crate) fn mass_after(mass: u32, west: i32, east: i32, south: i32, north: i32) -> u32
    requires kept { pos 0 ≤ℤ (pos mass +ℤ ((west -ℤ east) +ℤ (south -ℤ north))) }
    requires fits { (pos mass +ℤ ((west -ℤ east) +ℤ (south -ℤ north))) <ℤ pos (2 ^ 32) }
    ensures { pos result ≡ pos mass +ℤ ((west -ℤ east) +ℤ (south -ℤ north)) }
{
    (i64::from(mass) + net_inflow(west, east, south, north)) as u32
}

/// Makes the new masses of a row. Each gets what comes in through its faces, by the fluxes through the row's x faces
/// and through the y faces at its low and at its high side.
pub(crate) fn update_row(masses: &mut [u32], x: &[i32], low: &[i32], high: &[i32])
    requires x_count { length x.now ≡ length masses.old + 1 }
    requires low_count { length low.now ≡ length masses.old }
    requires high_count { length high.now ≡ length masses.old }
    requires kept { (k : ℕ) → k < length masses.old → pos 0 ≤ℤ (pos (slice_index masses.old k) +ℤ net_in_row x.now low.now high.now k) }
    requires fits { (k : ℕ) → k < length masses.old → (pos (slice_index masses.old k) +ℤ net_in_row x.now low.now high.now k) <ℤ pos (2 ^ 32) }
    ensures { (k : ℕ) → k < length masses.old → pos (slice_index masses.new k) ≡ pos (slice_index masses.old k) +ℤ net_in_row x.now low.now high.now k }
{
    for k in 0..masses.len() {
        masses[k] = mass_after(masses[k], x[k], x[k + 1], low[k], high[k]);
    }
}

/// Makes the new masses of row `j` of a patch by the fluxes in the room, all else stays.
#[tactic(auto, unfolding(crate::specs::Rooms::widest))]
pub(crate) fn update_patch_row(shape: Shape, j: usize, values: &mut [u32], room: &Room)
    requires value_count { length values.old ≡ (shape.h + 2) * (shape.w + 2) }
    requires row { j < shape.h }
    requires room { shape.w ≤ widest room.now }
    requires kept { (i : ℕ) → i < shape.w
        → pos 0 ≤ℤ (pos (value shape.w values.old (i + 1) (j + 1)) +ℤ net_in_row room.now.x.items room.now.low.items room.now.high.items i) }
    requires fits { (i : ℕ) → i < shape.w
        → (pos (value shape.w values.old (i + 1) (j + 1)) +ℤ net_in_row room.now.x.items room.now.low.items room.now.high.items i) <ℤ pos (2 ^ 32) }
    ensures made { (i : ℕ) → i < shape.w
        → pos (value shape.w values.new (i + 1) (j + 1))
        ≡ pos (value shape.w values.old (i + 1) (j + 1)) +ℤ net_in_row room.now.x.items room.now.low.items room.now.high.items i }
    ensures others { (k : ℕ) → ((i : ℕ) → i < shape.w → k ≢ (j + 1) * (shape.w + 2) + (i + 1)) → slice_index values.new k ≡ slice_index values.old k }
{
    let w = shape.w;
    let from = (j + 1) * (w + 2) + 1;
    update_row(
        &mut values[from..from + w],
        &room.x[..w + 1],
        &room.low[..w],
        &room.high[..w],
    );
}
