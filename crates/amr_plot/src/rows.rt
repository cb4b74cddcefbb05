//! The rows of masses of a box. A row is read span by span, with one look-up a span.

ghost use Rattle.std.specs.Prelude.{◌≡◌, ℕ, ◌+◌, ◌<◌, ◌≤◌, ◌≤ℤ◌, ◌^◌, length, pos, ◌+ℤ◌};
ghost use Rattle.std.specs.List.{flat_map, range_with_len};
ghost use Rattle.amr_box.specs.Cells.{IsNear, height, width};
ghost use Rattle.amr_def.specs.Plot.{mass_line};
ghost use Rattle.amr_patch.specs.BoxRows.{HasCellsOf};
ghost use Rattle.amr_patch.specs.Levels.{level_of};
ghost use Rattle.amr_plot.specs.Pens.{Puts};
ghost use Rattle.amr_plot.specs.Rows.{row_word};
ghost use Rattle.amr_plot.specs.Texts.{masses_text, texts, word};

use crate::pen::Pen;
use amr_box::Bx;
use amr_io::Fragment;
use amr_patch::{Level, masses_from};

fn put_mass<P: Pen>(column: usize, mass: u64, pen: &mut P) -> Result<(), P::Fault>
    ensures { Puts P.wrote P.failed pen.old pen.new (word column mass) result }
{
    pen.put_entry(column == 0, mass)
}

/// Masses that stand in the columns from `first` on.
pub fn put_masses<P: Pen>(first: usize, masses: &[u32], pen: &mut P) -> Result<(), P::Fault>
    requires { first + length masses.now < 2 ^ 32 }
    ensures { Puts P.wrote P.failed pen.old pen.new (masses_text first masses.now) result }
{
    for (k, mass) in masses.iter().enumerate() {
        put_mass(first + k, u64::from(*mass), pen)?;
    }
    Ok(())
}

fn put_columns<P: Pen>(level: &Level, b: &Bx, row: u32, pen: &mut P) -> Result<(), P::Fault>
    requires near { IsNear b.now }
    requires row { (b.now.lo.y +ℤ pos row) ≤ℤ b.now.hi.y }
    requires cells { HasCellsOf level.now b.now }
    ensures { Puts P.wrote P.failed pen.old pen.new (texts (row_word level.now b.now row) (width b.now)) result }
{
    let width = b.width();
    let mut first = 0;
    while first < width {
        let masses = masses_from(level, b, row, first);
        put_masses(first as usize, masses, pen)?;
        first += masses.len() as u32;
    }
    Ok(())
}

/// A row of masses, from the low column on.
fn put_row<P: Pen>(level: &Level, b: &Bx, row: u32, pen: &mut P) -> Result<(), P::Fault>
    requires near { IsNear b.now }
    requires row { (b.now.lo.y +ℤ pos row) ≤ℤ b.now.hi.y }
    requires cells { HasCellsOf level.now b.now }
    ensures { Puts P.wrote P.failed pen.old pen.new (mass_line (level_of level.now).masses b.now row) result }
{
    put_columns(level, b, row, pen)?;
    pen.put_fragments(&[Fragment::Str("\n")])
}

/// So many rows of a box, from row `first` on.
pub(crate) fn put_rows<P: Pen>(
    level: &Level,
    b: &Bx,
    first: u32,
    count: u32,
    pen: &mut P,
) -> Result<(), P::Fault>
    requires near { IsNear b.now }
    requires within { first + count ≤ height b.now }
    requires cells { HasCellsOf level.now b.now }
    ensures { Puts P.wrote P.failed pen.old pen.new
        (flat_map (mass_line (level_of level.now).masses b.now) (range_with_len first count)) result }
{
    for row in 0..count {
        put_row(level, b, first + row, pen)?;
    }
    Ok(())
}
