//! Cells of a patch that were cells of the level keep their masses.

ghost use Rattle.std.specs.Prelude.{◌≡◌, true, ℕ, ◌&&◌, pos, ◌+ℤ◌, ◌≤ℤ◌, is_some, IsTrue};
ghost use Rattle.amr_box.specs.declared.Cell.{Cell};
ghost use Rattle.amr_box.specs.Cells.{IsBoxOf, IsNear, holds};
ghost use Rattle.amr_def.specs.State.{mass_of};
ghost use Rattle.amr_patch.specs.Orders.{IsOrderOf};
ghost use Rattle.amr_patch.specs.Patches.{ArePatchesApart, KeepsFrameAndFluxes, box, mass_in, masses_in};
ghost use Rattle.amr_transfer.specs.Given.{HasOldMasses, IsCountFrom, IsGiven, span};

use crate::cells::{above, ahead, cells_from};
use crate::spans::give;
use crate::windows::reaching;
use amr_box::{Bx, Cell};
use amr_patch::{Order, Patch, find_near};

/// Gives cells of a row of a patch, from one of them on, the masses that an old patch has there.
fn keep_span(old: &Patch, patch: &mut Patch, c: Cell, count: u32)
    requires of_old { IsTrue (holds (box old.now) c) }
    requires inside { IsTrue (holds (box patch.old) c) }
    requires old_room { (c.x +ℤ pos count) ≤ℤ ((box old.now).hi.x +ℤ pos 1) }
    requires room { (c.x +ℤ pos count) ≤ℤ ((box patch.old).hi.x +ℤ pos 1) }
    ensures { IsGiven (holds (span c count)) (mass_in old.now) patch.old patch.new }
{
    let masses = old.masses_from(c);
    give(patch, c, &masses[..count as usize]);
}

/// Gives the cells of a box, which are those of two patches, the masses that the old one has.
fn keep_common(old: &Patch, patch: &mut Patch, common: Bx)
    requires near { IsNear common }
    requires cells { IsBoxOf common (λ c. holds (box patch.old) c && holds (box old.now) c) }
    ensures { IsGiven (holds (box old.now)) (mass_in old.now) patch.old patch.new }
{
    let width = common.width();
    for k in 0..common.height() {
        keep_span(old, patch, above(common.lo(), k), width);
    }
}

/// Gives the cells that an old patch has the masses that it has.
fn keep_patch(old: &Patch, patch: &mut Patch)
    ensures { IsGiven (holds (box old.now)) (mass_in old.now) patch.old patch.new }
{
    if let Some(common) = patch.bx().meet(&old.bx()) {
        keep_common(old, patch, common);
    }
}

/// Gives the cells that old patches have the masses that they have.
pub(crate) fn keep(old: &[Patch], order: Order, patch: &mut Patch)
    requires order { IsOrderOf order old.now }
    requires apart { ArePatchesApart old.now }
    ensures { IsGiven (λ c. is_some (masses_in old.now c)) (mass_of (masses_in old.now)) patch.old patch.new }
{
    for q in reaching(old, order, &patch.bx()) {
        keep_patch(q, patch);
    }
}

/// Gives cells of a row of a patch, from one of them on, the masses that an old patch has there, as far as both reach. Answers how
/// many it gave, 0 where no old patch has the first of them. That patch is looked for only where neither patch `near` nor one
/// beside it in the list has the cell; `near` becomes its number.
fn keep_run(old: &[Patch], order: Order, near: &mut usize, patch: &mut Patch, c: Cell) -> u32
    requires order { IsOrderOf order old.now }
    requires apart { ArePatchesApart old.now }
    requires inside { IsTrue (holds (box patch.old) c) }
    ensures within { (c.x +ℤ pos result) ≤ℤ ((box patch.old).hi.x +ℤ pos 1) }
    ensures kept { HasOldMasses (masses_in old.now) (holds (span c result)) patch.old patch.new }
{
    match find_near(old, order, near, c) {
        None => 0,
        Some(k) => {
            let q = &old[k];
            let count = cells_from(&q.bx(), c).min(cells_from(&patch.bx(), c)) as u32;
            keep_span(q, patch, c, count);
            count
        }
    }
}

/// Gives the cells of a row of a patch, from its low column on, the masses that old patches have there. Answers whether these have
/// all of them. After a no some may have been given theirs.
fn keep_row(old: &[Patch], order: Order, near: &mut usize, patch: &mut Patch, low: Cell) -> bool
    requires order { IsOrderOf order old.now }
    requires apart { ArePatchesApart old.now }
    requires inside { IsTrue (holds (box patch.old) low) }
    ensures frame { KeepsFrameAndFluxes patch.old patch.new }
    ensures kept { result ≡ true → (n : ℕ) → IsCountFrom (box patch.old) low n → HasOldMasses (masses_in old.now) (holds (span low n)) patch.old patch.new }
{
    let width = cells_from(&patch.bx(), low) as u32;
    let mut done = 0;
    while done < width {
        let count = keep_run(old, order, near, patch, ahead(low, done));
        if count == 0 {
            return false;
        }
        done += count;
    }
    true
}

/// Gives the cells of a patch the masses that old patches have there, row by row. Answers whether these have all of them. It stops
/// at the first that none of them has; after such a no some cells may have been given their masses.
pub(crate) fn keep_whole(old: &[Patch], order: Order, near: &mut usize, patch: &mut Patch) -> bool
    requires order { IsOrderOf order old.now }
    requires apart { ArePatchesApart old.now }
    ensures frame { KeepsFrameAndFluxes patch.old patch.new }
    ensures kept { result ≡ true → HasOldMasses (masses_in old.now) (holds (box patch.old)) patch.old patch.new }
{
    let b = patch.bx();
    for k in 0..b.height() {
        if !keep_row(old, order, near, patch, above(b.lo(), k)) {
            return false;
        }
    }
    true
}
