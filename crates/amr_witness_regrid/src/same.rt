//! Whether two states as ordered maps are one.

ghost use Rattle.std.specs.Prelude.{◌≡◌, IsTrue};
ghost use Rattle.amr_witness.specs.Maps.{level_of, levels_of, masses_of, state_of};

use amr_box::Bx;
use amr_def::Row;
use amr_witness::{Masses, Plain, PlainLevel};

fn same_rows(a: &[Row], b: &[Row]) -> bool
    ensures { IsTrue result → a.now ≡ b.now }
{
    a == b
}

fn same_boxes(a: &[Bx], b: &[Bx]) -> bool
    ensures { IsTrue result → a.now ≡ b.now }
{
    a == b
}

fn same_masses(a: &Masses, b: &Masses) -> bool
    ensures { IsTrue result → masses_of a.now ≡ masses_of b.now }
{
    a == b
}

fn same_level(a: &PlainLevel, b: &PlainLevel) -> bool
    ensures { IsTrue result → level_of a.now ≡ level_of b.now }
{
    if !same_boxes(a.boxes.as_slice(), b.boxes.as_slice()) {
        return false;
    }
    same_masses(&a.masses, &b.masses)
}

fn same_levels(a: &[PlainLevel], b: &[PlainLevel]) -> bool
    ensures { IsTrue result → levels_of a.now ≡ levels_of b.now }
{
    if a.len() != b.len() {
        return false;
    }
    for k in 0..a.len() {
        if !same_level(&a[k], &b[k]) {
            return false;
        }
    }
    true
}

/// Whether two states are one: by step, rows, boxes in their order, and masses.
pub fn are_same(a: &Plain, b: &Plain) -> bool
    ensures { IsTrue result → state_of a.now ≡ state_of b.now }
{
    if a.step != b.step {
        return false;
    }
    if !same_rows(a.rows.as_slice(), b.rows.as_slice()) {
        return false;
    }
    same_levels(a.levels.as_slice(), b.levels.as_slice())
}
