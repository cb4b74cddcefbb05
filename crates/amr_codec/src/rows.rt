//! The masses of a box, row by row. A row is read span by span, each found beside the last one.

ghost use Rattle.std.specs.Prelude.{◌≡◌, ◌≤ℤ◌, ◌++◌, OnOk, pos, ◌+ℤ◌};
ghost use Rattle.std.specs.List.{flat_map, range_with_len};
ghost use Rattle.amr_box.specs.Cells.{IsNear, cells_of, width};
ghost use Rattle.amr_def.specs.State.{mass_of};
ghost use Rattle.amr_patch.specs.Levels.{level_of};
ghost use Rattle.amr_payload.specs.Payload.{number_bytes};
ghost use Rattle.amr_codec.specs.MassWidths.{width_of};
ghost use Rattle.amr_patch.specs.BoxRows.{HasCellsOf, mass_in};

use crate::numbers::{MassWidth, put_masses};
use crate::spans::masses_near;
use amr_box::Bx;
use amr_causes::NoMemory;
use amr_patch::Level;

/// A row of the box, from the low column on. Its first patch is looked for beside that of number `near`, and its number left there.
pub(crate) fn put_row(
    mass_width: MassWidth,
    level: &Level,
    near: &mut usize,
    b: &Bx,
    row: u32,
    out: &mut Vec<u8>,
) -> Result<(), NoMemory>
    requires near { IsNear b.now }
    requires row { (b.now.lo.y +ℤ pos row) ≤ℤ b.now.hi.y }
    requires cells { HasCellsOf level.now b.now }
    ensures { OnOk result (out.new.items
        ≡ out.old.items ++ flat_map (λ i. number_bytes (width_of mass_width) (mass_in level.now b.now row i)) (range_with_len 0 (width b.now))) }
{
    let columns = b.width();
    let mut here = *near;
    let mut first = 0;
    while first < columns {
        let masses = masses_near(level, &mut here, b, row, first);
        if first == 0 {
            *near = here;
        }
        put_masses(mass_width, masses, out)?;
        first += masses.len() as u32;
        here = here.saturating_add(1);
    }
    Ok(())
}

/// The masses of a box, from the low row on.
pub(crate) fn put_rows(
    mass_width: MassWidth,
    level: &Level,
    b: &Bx,
    out: &mut Vec<u8>,
) -> Result<(), NoMemory>
    requires near { IsNear b.now }
    requires cells { HasCellsOf level.now b.now }
    ensures { OnOk result (out.new.items
        ≡ out.old.items ++ flat_map (λ c. number_bytes (width_of mass_width) (mass_of (level_of level.now).masses c)) (cells_of b.now)) }
{
    let mut near = 0;
    for row in 0..b.height() {
        put_row(mass_width, level, &mut near, b, row, out)?;
    }
    Ok(())
}
