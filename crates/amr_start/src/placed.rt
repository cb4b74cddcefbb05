//! Masses of one list, placed in the patches of a level.

ghost use Rattle.std.specs.Prelude.{◌≡◌, ◌≢◌, ◌+◌, ◌*◌, ◌<◌, ◌≤◌, pos, negsuc, ◌+ℤ◌, ◌<ℤ◌, length, slice_index, unsigned_abs, Some, IsTrue};
ghost use Rattle.std.specs.List.{All, AllZip};
ghost use Rattle.amr_box.specs.declared.Cell.{Cell};
ghost use Rattle.amr_box.specs.Cells.{holds, near_limit, within};
ghost use Rattle.amr_patch.specs.Patches.{box, mass_in};
ghost use Rattle.amr_start.specs.Placed.{HasBoxOf, HasMassesOf, LiesInBox};
ghost use Rattle.amr_start.specs.Rows.{box_of, masses_on};

use amr_box::Cell;
use amr_patch::Patch;

/// Where the mass of a cell stands in the list of all masses.
fn place_of(c: Cell, columns: usize, rows: usize) -> usize
    requires inside { IsTrue (holds (box_of columns rows) c) }
    requires narrow { columns ≤ 256 }
    requires flat { rows ≤ 256 }
    ensures { result ≡ unsigned_abs c.y * columns + unsigned_abs c.x }
{
    c.y.unsigned_abs() as usize * columns + c.x.unsigned_abs() as usize
}

/// The number that lies `k` above another.
fn ahead(z: i32, k: u32) -> i32
    requires from { negsuc near_limit <ℤ z }
    requires to { z <ℤ pos (near_limit + 1) }
    requires small { k ≤ 2 * near_limit }
    ensures { result ≡ z +ℤ pos k }
{
    z + k as i32
}

/// Gives the cells of a row their masses, all at once.
fn place_row(patch: &mut Patch, masses: &[u32], columns: usize, rows: usize, y: i32)
    requires inside { LiesInBox (box_of columns rows) patch.old }
    requires count { length masses.now ≡ rows * columns }
    requires narrow { columns ≤ 256 }
    requires flat { rows ≤ 256 }
    requires of_patch { IsTrue (within (box patch.old).lo.y (box patch.old).hi.y y) }
    ensures of_box { box patch.new ≡ box patch.old }
    ensures made { (c : Cell) → IsTrue (holds (box patch.old) c) → c.y ≡ y → masses_on columns rows masses.now c ≡ Some (mass_in patch.new c) }
    ensures others { (c : Cell) → IsTrue (holds (box patch.old) c) → c.y ≢ y → mass_in patch.new c ≡ mass_in patch.old c }
{
    let b = patch.bx();
    let first = Cell { x: b.lo().x, y };
    let from = place_of(first, columns, rows);
    patch.set_masses(first, &masses[from..from + b.width() as usize]);
}

/// Gives the cells of a patch their masses, row by row.
fn place_patch(patch: &mut Patch, masses: &[u32], columns: usize, rows: usize)
    requires inside { LiesInBox (box_of columns rows) patch.old }
    requires count { length masses.now ≡ rows * columns }
    requires narrow { columns ≤ 256 }
    requires flat { rows ≤ 256 }
    ensures of_box { HasBoxOf patch.old patch.new }
    ensures masses { HasMassesOf (masses_on columns rows masses.now) patch.new }
{
    let b = patch.bx();
    for k in 0..b.height() {
        let y = ahead(b.lo().y, k);
        place_row(patch, masses, columns, rows, y);
    }
}

/// Gives the cells of all patches their masses.
pub(crate) fn place_all(patches: &mut [Patch], masses: &[u32], columns: usize, rows: usize)
    requires inside { All (LiesInBox (box_of columns rows)) patches.old }
    requires count { length masses.now ≡ rows * columns }
    requires narrow { columns ≤ 256 }
    requires flat { rows ≤ 256 }
    ensures boxes { AllZip HasBoxOf patches.old patches.new }
    ensures masses { All (HasMassesOf (masses_on columns rows masses.now)) patches.new }
{
    for i in 0..patches.len() {
        place_patch(&mut patches[i], masses, columns, rows);
    }
}
