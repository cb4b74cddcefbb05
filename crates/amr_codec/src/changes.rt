//! The masses of a box by a form: all of them, or those of the rows that changed since an older state. A row is compared span by
//! span, and where both levels have the same patches each is found at the first look.

ghost use Rattle.std.specs.Prelude.{◌≡◌, ℕ, ◌+◌, ◌<◌, ◌≤◌, ◌++◌, ◌↔◌, pos, ◌+ℤ◌, ◌≤ℤ◌, length, slice_index, IsTrue, OnOk};
ghost use Rattle.std.specs.List.{flat_map};
ghost use Rattle.amr_box.specs.Cells.{IsNear, width};
ghost use Rattle.amr_patch.specs.BoxRows.{HasCellsOf, mass_in};
ghost use Rattle.amr_patch.specs.Levels.{level_of};
ghost use Rattle.amr_payload.specs.Payload.{cell_rows, changed_bytes, masses_bytes};
ghost use Rattle.amr_codec.specs.Forms.{HasMassAt, HaveMassesFrom, cells_of_row, form_of, masses_before};

use crate::basis::Form;
use crate::numbers::{MassWidth, put_flag};
use crate::rows::{put_row, put_rows};
use crate::spans::{masses_near, span_near};
use amr_box::Bx;
use amr_causes::NoMemory;
use amr_patch::{Level, cell_in};

/// Where look-ups of a row begin, in the level that is written and in the older one: at the patches that had the first cell of the
/// last row.
#[derive(Clone, Copy)]
struct Places {
    new: usize,
    old: usize,
}

/// Whether numbers are equal, one by one.
fn are_equal(a: &[u32], b: &[u32]) -> bool
    requires { length a.now ≡ length b.now }
    ensures { IsTrue result ↔ ((k : ℕ) → k < length a.now → slice_index a.now k ≡ slice_index b.now k) }
{
    let mut equal = true;
    for k in 0..a.len() {
        equal &= a[k] == b[k];
    }
    equal
}

/// How many cells of a row of the box have these masses, from column `first` on and as far as they stand in one patch. 0 where
/// one of these has another mass, or the first is no cell of the level.
fn span_with(level: &Level, near: &mut usize, b: &Bx, row: u32, first: u32, masses: &[u32]) -> usize
    requires near { IsNear b.now }
    requires row { (b.now.lo.y +ℤ pos row) ≤ℤ b.now.hi.y }
    requires some { 0 < length masses.now }
    requires columns { first + length masses.now ≤ width b.now }
    ensures within { result ≤ length masses.now }
    ensures same { HaveMassesFrom (level_of level.now).masses b.now row first masses.now result }
    ensures none { result ≡ 0 → HaveMassesFrom (level_of level.now).masses b.now row first masses.now (length masses.now) → ⊥ }
{
    match span_near(level, near, cell_in(b, row, first)) {
        None => 0,
        Some(span) => {
            let count = span.len().min(masses.len());
            if are_equal(&span[..count], &masses[..count]) {
                count
            } else {
                0
            }
        }
    }
}

/// Whether the cells of a row of the box from column `first` on are cells of the level and have these masses.
fn level_has(level: &Level, near: &mut usize, b: &Bx, row: u32, first: u32, masses: &[u32]) -> bool
    requires near { IsNear b.now }
    requires row { (b.now.lo.y +ℤ pos row) ≤ℤ b.now.hi.y }
    requires columns { first + length masses.now ≤ width b.now }
    ensures { IsTrue result ↔ HaveMassesFrom (level_of level.now).masses b.now row first masses.now (length masses.now) }
{
    let mut done = 0;
    while done < masses.len() {
        let count = span_with(level, near, b, row, first + done as u32, &masses[done..]);
        if count == 0 {
            return false;
        }
        done += count;
    }
    true
}

/// The same as `has_masses`, where the patch of the first cell is looked for beside that of number `near`.
fn has_masses_near(
    old: Option<&Level>,
    near: &mut usize,
    b: &Bx,
    row: u32,
    first: u32,
    masses: &[u32],
) -> bool
    requires near { IsNear b.now }
    requires row { (b.now.lo.y +ℤ pos row) ≤ℤ b.now.hi.y }
    requires columns { first + length masses.now ≤ width b.now }
    ensures { IsTrue result ↔ HaveMassesFrom (masses_before old.entry) b.now row first masses.now (length masses.now) }
{
    match old {
        None => masses.is_empty(),
        Some(level) => level_has(level, near, b, row, first, masses),
    }
}

/// Whether an older state has the cells of a row of the box from column `first` on, at this level, and there with these masses.
/// None is a level that it has not.
pub fn has_masses(old: Option<&Level>, b: &Bx, row: u32, first: u32, masses: &[u32]) -> bool
    requires near { IsNear b.now }
    requires row { (b.now.lo.y +ℤ pos row) ≤ℤ b.now.hi.y }
    requires columns { first + length masses.now ≤ width b.now }
    ensures { IsTrue result ↔ HaveMassesFrom (masses_before old.entry) b.now row first masses.now (length masses.now) }
{
    let mut near = 0;
    has_masses_near(old, &mut near, b, row, first, masses)
}

/// Whether the cells of a row of the box have the masses of `level` in the older state.
fn keeps_row(old: Option<&Level>, level: &Level, places: &mut Places, b: &Bx, row: u32) -> bool
    requires near { IsNear b.now }
    requires row { (b.now.lo.y +ℤ pos row) ≤ℤ b.now.hi.y }
    requires cells { HasCellsOf level.now b.now }
    ensures { IsTrue result ↔ ((i : ℕ) → i < width b.now → HasMassAt (masses_before old.entry) b.now row i (mass_in level.now b.now row i)) }
{
    let columns = b.width();
    let mut here = *places;
    let mut first = 0;
    while first < columns {
        let masses = masses_near(level, &mut here.new, b, row, first);
        let kept = has_masses_near(old, &mut here.old, b, row, first, masses);
        if first == 0 {
            *places = here;
        }
        if !kept {
            return false;
        }
        first += masses.len() as u32;
        here = Places {
            new: here.new.saturating_add(1),
            old: here.old.saturating_add(1),
        };
    }
    true
}

/// A row of the box: its flag, and its masses where one of them changed.
#[tactic(auto, unfolding(amr_payload::specs::Payload::changed_bytes))]
fn put_changed_row(
    old: Option<&Level>,
    level: &Level,
    places: &mut Places,
    b: &Bx,
    row: u32,
    out: &mut Vec<u8>,
) -> Result<(), NoMemory>
    requires near { IsNear b.now }
    requires row { (b.now.lo.y +ℤ pos row) ≤ℤ b.now.hi.y }
    requires cells { HasCellsOf level.now b.now }
    ensures { OnOk result (out.new.items
        ≡ out.old.items ++ changed_bytes (masses_before old.entry) (level_of level.now).masses (cells_of_row b.now row)) }
{
    if keeps_row(old, level, places, b, row) {
        return put_flag(0, out);
    }
    put_flag(1, out)?;
    put_row(MassWidth::Four, level, &mut places.new, b, row, out)
}

/// The rows of the box that changed, from the low row on.
fn put_changed_rows(
    old: Option<&Level>,
    level: &Level,
    b: &Bx,
    out: &mut Vec<u8>,
) -> Result<(), NoMemory>
    requires near { IsNear b.now }
    requires cells { HasCellsOf level.now b.now }
    ensures { OnOk result (out.new.items
        ≡ out.old.items ++ flat_map (changed_bytes (masses_before old.entry) (level_of level.now).masses) (cell_rows b.now)) }
{
    let mut places = Places { new: 0, old: 0 };
    for row in 0..b.height() {
        put_changed_row(old, level, &mut places, b, row, out)?;
    }
    Ok(())
}

/// The masses of a box of the level by a form.
pub(crate) fn put_masses_of(
    form: &Form<'_>,
    level: &Level,
    b: &Bx,
    out: &mut Vec<u8>,
) -> Result<(), NoMemory>
    requires near { IsNear b.now }
    requires cells { HasCellsOf level.now b.now }
    ensures { OnOk result (out.new.items ≡ out.old.items ++ masses_bytes (form_of form.now) (level_of level.now).masses b.now) }
{
    match form {
        Form::Whole(width) => put_rows(*width, level, b, out),
        Form::Changed(old) => put_changed_rows(*old, level, b, out),
    }
}
