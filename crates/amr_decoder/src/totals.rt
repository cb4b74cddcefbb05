//! The mass of level 0, row by row, and whether the ledger has it.

ghost use Rattle.std.specs.Prelude.{◌≡◌, ◌*◌, ◌^◌, ◌≤◌, ◌==◌, pos, ◌+ℤ◌, ◌≤ℤ◌, [], ◌∷◌, length, map, slice_index, slice_index_or};
ghost use Rattle.amr_box.specs.Cells.{IsNear, height, width};
ghost use Rattle.amr_patch.specs.BoxRows.{HasCellsOf, mass_in};
ghost use Rattle.amr_def.specs.Domain.{domain, domain_box};
ghost use Rattle.amr_def.specs.Facts.{IsLevel};
ghost use Rattle.amr_def.specs.Ledger.{sum_to, total_mass};
ghost use Rattle.amr_def.specs.State.{no_level};
ghost use Rattle.amr_patch.specs.Levels.{level_of};
ghost use Rattle.amr_decoder.specs.ReadLevels.{HasBase};

use amr_box::Bx;
use amr_def::{Problem, Row};
use amr_patch::{Level, masses_from};

/// The sum of the masses of a span.
fn span_mass(masses: &[u32]) -> u64
    requires { length masses.now ≤ 256 }
    ensures value { result ≡ sum_to (λ k. slice_index masses.now k) (length masses.now) }
    ensures small { result ≤ length masses.now * 2 ^ 32 }
{
    let mut sum = 0;
    for mass in masses {
        sum += u64::from(*mass);
    }
    sum
}

/// The mass of a row of the box, counted from its low row.
fn row_mass(level: &Level, b: &Bx, row: u32) -> u64
    requires near { IsNear b.now }
    requires row { (b.now.lo.y +ℤ pos row) ≤ℤ b.now.hi.y }
    requires cells { HasCellsOf level.now b.now }
    requires narrow { width b.now ≤ 256 }
    ensures value { result ≡ sum_to (mass_in level.now b.now row) (width b.now) }
    ensures small { result ≤ 2 ^ 40 }
{
    let columns = b.width();
    let mut first = 0;
    let mut sum = 0;
    while first < columns {
        let masses = masses_from(level, b, row, first);
        sum += span_mass(masses);
        first += masses.len() as u32;
    }
    sum
}

/// The mass of the cells of the box.
fn box_mass(level: &Level, b: &Bx) -> u64
    requires near { IsNear b.now }
    requires cells { HasCellsOf level.now b.now }
    requires narrow { width b.now ≤ 256 }
    requires flat { height b.now ≤ 256 }
    ensures { result ≡ sum_to (λ j. sum_to (mass_in level.now b.now j) (width b.now)) (height b.now) }
{
    let mut sum = 0;
    for row in 0..b.height() {
        sum += row_mass(level, b, row);
    }
    sum
}

/// The mass of level 0, whose box is the domain.
fn total_mass(p: &Problem, base: &Level) -> u64
    requires level { IsLevel p.now 0 (level_of base.now) }
    requires boxes { (level_of base.now).boxes ≡ domain_box (domain p.now 0) ∷ [] }
    ensures { result ≡ total_mass p.now (level_of base.now).masses }
{
    let whole = base.boxes()[0];
    box_mass(base, &whole)
}

/// Whether a row of the ledger has the mass of level 0.
pub(crate) fn is_in_balance(p: &Problem, row: Row, levels: &[Level]) -> bool
    requires { HasBase p.now (map level_of levels.now) }
    ensures { result ≡ (row.mass == total_mass p.now (slice_index_or (map level_of levels.now) 0 no_level).masses) }
{
    row.mass == total_mass(p, &levels[0])
}
