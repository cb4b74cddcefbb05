//! The masses of a level, laid over those of a row of cells.

ghost use Rattle.std.specs.Prelude.{◌≡◌, [], ◌∷◌, false, length};
ghost use Rattle.amr_box.specs.Cells.{IsNear, width};
ghost use Rattle.amr_def.specs.State.{level_at};
ghost use Rattle.amr_patch.specs.Levels.{level_of};
ghost use Rattle.amr_patch.specs.Meshes.{is_spent, state_of};
ghost use Rattle.amr_patch.specs.Patches.{masses_in};
ghost use Rattle.amr_view.specs.Rows.{AreLaid};

use amr_box::{Bx, distance};
use amr_patch::{Level, Mesh, Patch};
use amr_transfer::reaching;

/// Lays the masses of the cells that a patch has of the row over theirs.
fn lay_patch(patch: &Patch, row: &Bx, masses: &mut [u32])
    requires near { IsNear row.now }
    requires flat { row.now.hi.y ≡ row.now.lo.y }
    requires width { length masses.old ≡ width row.now }
    ensures { AreLaid (masses_in (patch.now ∷ [])) row.now masses.old masses.new }
{
    let Some(both) = row.meet(&patch.bx()) else {
        return;
    };
    let from = distance(row.lo().x, both.lo().x);
    let count = both.width() as usize;
    let end = from + count;
    let span = patch.masses_from(both.lo());
    masses[from..end].copy_from_slice(&span[..count]);
}

/// The same of a list of patches, the last first.
fn lay_patches(patches: &[Patch], row: &Bx, masses: &mut [u32])
    requires near { IsNear row.now }
    requires flat { row.now.hi.y ≡ row.now.lo.y }
    requires width { length masses.old ≡ width row.now }
    ensures { AreLaid (masses_in patches.now) row.now masses.old masses.new }
{
    let mut left = patches.len();
    while left > 0 {
        left -= 1;
        lay_patch(&patches[left], row, masses);
    }
}

/// Lays the masses of a level over those of a row of cells. Only those patches are looked at that may reach the row.
fn lay_level(level: &Level, row: &Bx, masses: &mut [u32])
    requires near { IsNear row.now }
    requires flat { row.now.hi.y ≡ row.now.lo.y }
    requires width { length masses.old ≡ width row.now }
    ensures { AreLaid (level_of level.now).masses row.now masses.old masses.new }
{
    let near = reaching(level.patches(), level.order(), row);
    lay_patches(near, row, masses);
}

/// Lays the masses of level `l` of the mesh over those of a row of cells. Where there is no such level all stay.
pub(crate) fn lay(mesh: &Mesh, l: u32, row: &Bx, masses: &mut [u32])
    requires whole { is_spent mesh.now ≡ false }
    requires near { IsNear row.now }
    requires flat { row.now.hi.y ≡ row.now.lo.y }
    requires width { length masses.old ≡ width row.now }
    ensures { AreLaid (level_at (state_of mesh.now) l).masses row.now masses.old masses.new }
{
    let levels = mesh.levels();
    let at = l as usize;
    if at >= levels.len() {
        return;
    }
    lay_level(&levels[at], row, masses);
}
