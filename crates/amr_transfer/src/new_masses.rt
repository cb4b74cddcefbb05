//! The masses of a level that is made anew.

ghost use Rattle.std.specs.Prelude.{◌≡◌, ℕ, ◌+◌, ◌*◌, ◌/◌, ◌%◌, ◌<◌, ◌≤◌, pos, ◌+ℤ◌, ◌≤ℤ◌, Some, length, slice_index, is_some, IsSome, IsTrue};
ghost use Rattle.std.specs.Option.{option_copied};
ghost use Rattle.std.specs.List.{All};
ghost use Rattle.amr_box.specs.declared.Cell.{Cell};
ghost use Rattle.amr_box.specs.Cells.{cell, holds, in_boxes, parent};
ghost use Rattle.amr_def.specs.Regrid.{refilled, child_share, split_mass};
ghost use Rattle.amr_def.specs.State.{children_mass, mass_of};
ghost use Rattle.amr_patch.specs.Levels.{level_of, patches_of};
ghost use Rattle.amr_patch.specs.Pairwise.{Pairwise};
ghost use Rattle.amr_patch.specs.Orders.{IsOrderOf};
ghost use Rattle.amr_patch.specs.Patches.{ArePatchesApart, KeepsFrameAndFluxes, box, in_patches, masses_in};
ghost use Rattle.amr_transfer.specs.Given.{HasMasses, IsCountFrom, IsGiven, span};
ghost use Rattle.amr_transfer.specs.Shares.{HasChildren, IsInSync, kept_or_split, masses_before};

use crate::cells::{ROOM, above, ahead, cells_from, odd};
use crate::old_cells::{keep, keep_whole};
use crate::spans::give;
use crate::threads::{CallingThread, Sharing};
use amr_box::{Cell, parent};
use amr_patch::{Level, Order, Patch, find_near, order_of};

/// What child `k` gets of its parent's mass: a quarter, and one more for the first of the four.
fn child_share(mass: u32, k: u32) -> u32
    ensures { result ≡ child_share mass k }
{
    if k < mass % 4 { mass / 4 + 1 } else { mass / 4 }
}

/// Works out the shares of the children of parents in a row, two of each: those in the low row of its children where `row` is 0,
/// those in the high row where it is 1.
pub fn share_row(parents: &[u32], row: u32, shares: &mut [u32])
    requires row { row ≤ 1 }
    requires twice { length shares.old ≡ 2 * length parents.now }
    ensures { (k : ℕ) → k < length shares.new → slice_index shares.new k ≡ child_share (slice_index parents.now (k / 2)) (2 * row + k % 2) }
{
    for k in 0..parents.len() {
        shares[2 * k] = child_share(parents[k], 2 * row);
        shares[2 * k + 1] = child_share(parents[k], 2 * row + 1);
    }
}

/// The masses of a row from a cell of a level on, to the high end of the patch that has the cell. It is looked for only where
/// neither patch `near` nor one beside it in the list has the cell; `near` becomes its number.
fn parents_from<'a>(coarse: &'a Level, near: &mut usize, c: Cell) -> &'a [u32]
    requires { IsSome ((level_of coarse.now).masses c) }
    ensures some { 0 < length result.now }
    ensures masses { (k : ℕ) → k < length result.now → (level_of coarse.now).masses (cell (c.x +ℤ pos k) c.y) ≡ Some (slice_index result.now k) }
{
    let patches = coarse.patches();
    match find_near(patches, coarse.order(), near, c) {
        None => unreachable!(),
        Some(k) => patches[k].masses_from(c),
    }
}

/// Gives cells of a row of a patch, from one of them on, their shares. It stops where the parents leave one coarse patch, and
/// after as many as there is room for. Answers how many it gave.
fn split_span(coarse: &Level, near: &mut usize, patch: &mut Patch, c: Cell, room: &mut [u32]) -> u32
    requires parent { IsSome ((level_of coarse.now).masses (parent c)) }
    requires inside { IsTrue (holds (box patch.old) c) }
    requires room { length room.old ≡ 256 }
    ensures some { 0 < result }
    ensures within { (c.x +ℤ pos result) ≤ℤ ((box patch.old).hi.x +ℤ pos 1) }
    ensures given { IsGiven (holds (span c result)) (split_mass (level_of coarse.now).masses) patch.old patch.new }
{
    let parents = parents_from(coarse, near, parent(c));
    let first = odd(c.x);
    let reach = 2 * parents.len().min(ROOM / 2) - first;
    let count = reach.min(cells_from(&patch.bx(), c));
    let pairs = (first + count + 1) / 2;
    share_row(&parents[..pairs], odd(c.y) as u32, &mut room[..2 * pairs]);
    give(patch, c, &room[first..first + count]);
    count as u32
}

/// Gives the cells of a row of a patch, from its low column on, their shares.
fn split_row(coarse: &Level, near: &mut usize, patch: &mut Patch, low: Cell, room: &mut [u32])
    requires parents { (c : Cell) → IsTrue (holds (box patch.old) c) → IsSome ((level_of coarse.now).masses (parent c)) }
    requires inside { IsTrue (holds (box patch.old) low) }
    requires room { length room.old ≡ 256 }
    ensures { (n : ℕ) → IsCountFrom (box patch.old) low n → IsGiven (holds (span low n)) (split_mass (level_of coarse.now).masses) patch.old patch.new }
{
    let width = cells_from(&patch.bx(), low) as u32;
    let mut done = 0;
    while done < width {
        done += split_span(coarse, near, patch, ahead(low, done), room);
    }
}

/// Gives the cells of a patch their shares.
fn split_patch(coarse: &Level, near: &mut usize, patch: &mut Patch, room: &mut [u32])
    requires parents { (c : Cell) → IsTrue (holds (box patch.old) c) → IsSome ((level_of coarse.now).masses (parent c)) }
    requires room { length room.old ≡ 256 }
    ensures { IsGiven (holds (box patch.old)) (split_mass (level_of coarse.now).masses) patch.old patch.new }
{
    let b = patch.bx();
    for k in 0..b.height() {
        split_row(coarse, near, patch, above(b.lo(), k), room);
    }
}

/// Gives the cells of a patch their masses: those that the old patches have, else their shares. Most patches of a regrid lie wholly in
/// old ones, so shares are worked out only where this one doesn't.
fn fill_patch(
    coarse: &Level,
    near: &mut usize,
    old: &[Patch],
    order: Order,
    near_old: &mut usize,
    patch: &mut Patch,
    room: &mut [u32],
)
    requires parents { (c : Cell) → IsTrue (holds (box patch.old) c) → IsSome ((level_of coarse.now).masses (parent c)) }
    requires order { IsOrderOf order old.now }
    requires apart { ArePatchesApart old.now }
    requires room { length room.old ≡ 256 }
    ensures kept { KeepsFrameAndFluxes patch.old patch.new }
    ensures masses { HasMasses (kept_or_split (level_of coarse.now).masses (masses_in old.now)) patch.new }
{
    if keep_whole(old, order, near_old, patch) {
        return;
    }
    split_patch(coarse, near, patch, room);
    keep(old, order, patch);
}

/// The same of a list of patches.
pub(crate) fn fill_all(coarse: &Level, old: &[Patch], patches: &mut [Patch])
    requires parents { (c : Cell) → IsTrue (in_patches patches.old c) → IsSome ((level_of coarse.now).masses (parent c)) }
    requires apart { ArePatchesApart old.now }
    ensures kept { Pairwise KeepsFrameAndFluxes patches.old patches.new }
    ensures masses { All (HasMasses (kept_or_split (level_of coarse.now).masses (masses_in old.now))) patches.new }
{
    let order = order_of(old);
    let mut near = 0;
    let mut near_old = 0;
    let mut room = [0u32; ROOM];
    for i in 0..patches.len() {
        fill_patch(
            coarse,
            &mut near,
            old,
            order,
            &mut near_old,
            &mut patches[i],
            &mut room,
        );
    }
}

/// The patches of a level as it was, none where there was no such level.
fn patches_before(old: Option<&Level>) -> &[Patch]
    ensures masses { masses_in result.now ≡ masses_before (option_copied old.entry) }
    ensures apart { ArePatchesApart result.now }
{
    match old {
        Some(level) => level.patches(),
        None => &[],
    }
}

/// Gives the cells of a level their masses over the next coarser one, as a regrid does. A cell of `old_fine` keeps the mass that
/// it has there. Any other gets its child share of its parent's mass `m`: a quarter, rounded down, and one unit more for the
/// first `m mod 4` of the four. So the four children of a cell add up to it, if the old level was in sync with it. (Berger and
/// Colella: a new grid takes its values from the old grids, else from the coarser level.)
///
/// The parent of each cell is a cell of the coarser level, and the cells are those of the level's boxes. Boxes, patch boxes,
/// frames and fluxes stay. It takes no memory.
pub fn split_into(coarse: &Level, old_fine: Option<&Level>, fine: &mut Level)
    requires filled { (c : Cell) → is_some ((level_of fine.old).masses c) ≡ in_boxes (level_of fine.old).boxes c }
    requires parents { (c : Cell) → IsSome ((level_of fine.old).masses c) → IsSome ((level_of coarse.now).masses (parent c)) }
    ensures masses { (level_of fine.new).masses
        ≡ refilled (level_of coarse.now).masses (masses_before (option_copied old_fine.entry)) (level_of fine.old).boxes }
    ensures boxes { (level_of fine.new).boxes ≡ (level_of fine.old).boxes }
    ensures patches { Pairwise KeepsFrameAndFluxes (patches_of fine.old) (patches_of fine.new) }
    ensures sync { (c : Cell) → HasChildren (level_of fine.old).masses c
        → IsInSync (level_of coarse.now).masses (masses_before (option_copied old_fine.entry)) c
        → children_mass (level_of fine.new).masses c ≡ mass_of (level_of coarse.now).masses c }
{
    split_by(&CallingThread, coarse, old_fine, fine);
}

/// The same, by the calling thread alone or in several threads. The masses are the same whichever it is.
pub fn split_by<S: Sharing>(sharing: &S, coarse: &Level, old_fine: Option<&Level>, fine: &mut Level)
    requires shared { S.may_share sharing.now }
    requires filled { (c : Cell) → is_some ((level_of fine.old).masses c) ≡ in_boxes (level_of fine.old).boxes c }
    requires parents { (c : Cell) → IsSome ((level_of fine.old).masses c) → IsSome ((level_of coarse.now).masses (parent c)) }
    ensures masses { (level_of fine.new).masses
        ≡ refilled (level_of coarse.now).masses (masses_before (option_copied old_fine.entry)) (level_of fine.old).boxes }
    ensures boxes { (level_of fine.new).boxes ≡ (level_of fine.old).boxes }
    ensures patches { Pairwise KeepsFrameAndFluxes (patches_of fine.old) (patches_of fine.new) }
    ensures sync { (c : Cell) → HasChildren (level_of fine.old).masses c
        → IsInSync (level_of coarse.now).masses (masses_before (option_copied old_fine.entry)) c
        → children_mass (level_of fine.new).masses c ≡ mass_of (level_of coarse.now).masses c }
{
    let order = fine.order();
    let mut patches = fine.take_patches();
    sharing.fill(coarse, patches_before(old_fine), &mut patches);
    fine.put_patches_in_order(patches, order);
}
