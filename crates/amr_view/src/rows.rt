//! The finest masses of the cells of a row.

ghost use Rattle.std.specs.Prelude.{◌≡◌, ◌*◌, ◌≤◌, false, length};
ghost use Rattle.amr_box.specs.Cells.{IsNear, width};
ghost use Rattle.amr_def.specs.Regrid.{odd};
ghost use Rattle.amr_patch.specs.Meshes.{is_spent, state_of};
ghost use Rattle.amr_view.specs.Rows.{AreFinest, HasWholeColumns};

use crate::laid::lay;
use amr_box::Bx;
use amr_patch::Mesh;
use amr_transfer::share_row;

/// 1 at an odd number, 0 at an even one.
fn odd(z: i32) -> u32
    ensures value { result ≡ odd z }
    ensures bit { result ≤ 1 }
{
    z.rem_euclid(2) as u32
}

/// Gives the cells of a row of level `l` their finest masses. Those of the row of their parents are worked out first, in `spare`: each is shared
/// out to the children in the row, and the masses of the level are laid over these shares.
pub(crate) fn fill_row(mesh: &Mesh, l: u32, row: &Bx, masses: &mut [u32], spare: &mut [u32])
    requires whole { is_spent mesh.now ≡ false }
    requires near { IsNear row.now }
    requires columns { HasWholeColumns l row.now }
    requires width { length masses.old ≡ width row.now }
    requires spare { length masses.old ≤ 2 * length spare.old }
    ensures { AreFinest (state_of mesh.now) l row.now masses.new }
{
    if l == 0 {
        masses.fill(0);
        lay(mesh, 0, row, masses);
        return;
    }
    let parents = row.coarsen2();
    let half = masses.len() / 2;
    fill_row(mesh, l - 1, &parents, &mut spare[..half], masses);
    share_row(&spare[..half], odd(row.lo().y), masses);
    lay(mesh, l, row, masses);
}
