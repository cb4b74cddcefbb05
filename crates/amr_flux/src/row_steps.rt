//! The new masses of a row of cells, in place and in one loop, where one Courant number holds along each axis.

ghost use Rattle.std.specs.Prelude.{◌≡◌, ℕ, ◌+◌, ◌*◌, ◌<◌, ◌≤◌, ◌^◌, pos, ◌≤ℤ◌, ◌<ℤ◌, length, slice_index};
ghost use Rattle.amr_flux.specs.Paces.{AreFit, IsReadyRow, IsSteppedRow, came, gone, x_donor, x_share, y_share};
ghost use Rattle.amr_flux.specs.Tables.{value};

use crate::pace::Pace;

/// A mass with what goes out of it along both axes, and what comes in.
#[inline(always)]
fn stepped(mass: u32, along: u32, out: u32, gain: u32, entering: u32) -> u32
    requires enough { along + out ≤ mass }
    requires small { mass < 2 ^ 31 }
    requires room { gain + entering ≤ 2 ^ 31 }
    ensures { result + (along + out) ≡ mass + (gain + entering) }
{
    mass - (along + out) + (gain + entering)
}

/// Makes the new masses of a row that flows towards its high end. `across` has what comes into each cell from the row before,
/// and gets what goes out of each into the row after. Answers what goes out of the last cell along the row.
#[inline(always)]
fn ahead(pace: Pace, first: u32, across: &mut [u32], row: &mut [u32]) -> u32
    requires count { length across.old ≡ length row.old }
    requires fit { AreFit pace row.old }
    requires room { (k : ℕ) → k < length row.old → came pace first row.old k + slice_index across.old k ≤ 2 ^ 31 }
    ensures masses { (k : ℕ) → k < length row.old
        → slice_index row.new k + gone pace (slice_index row.old k) ≡ slice_index row.old k + (came pace first row.old k + slice_index across.old k) }
    ensures across { (k : ℕ) → k < length row.old → slice_index across.new k ≡ y_share pace (slice_index row.old k) }
    ensures last { result ≡ came pace first row.old (length row.old) }
{
    let mut gain = first;
    for k in 0..row.len() {
        let mass = row[k];
        let along = pace.along(mass);
        let out = pace.across(mass);
        row[k] = stepped(mass, along, out, gain, across[k]);
        across[k] = out;
        gain = along;
    }
    gain
}

/// The same of a row that flows towards its low end. The last mass is of the cell beyond the row, and stays.
#[inline(always)]
fn back(pace: Pace, across: &mut [u32], row: &mut [u32])
    requires count { length row.old ≡ length across.old + 1 }
    requires fit { AreFit pace row.old }
    requires room { (k : ℕ) → k < length across.old → x_share pace (slice_index row.old (k + 1)) + slice_index across.old k ≤ 2 ^ 31 }
    ensures masses { (k : ℕ) → k < length across.old
        → slice_index row.new k + gone pace (slice_index row.old k)
        ≡ slice_index row.old k + (x_share pace (slice_index row.old (k + 1)) + slice_index across.old k) }
    ensures across { (k : ℕ) → k < length across.old → slice_index across.new k ≡ y_share pace (slice_index row.old k) }
    ensures beyond { slice_index row.new (length across.old) ≡ slice_index row.old (length across.old) }
{
    for k in 0..across.len() {
        let mass = row[k];
        let along = pace.along(mass);
        let out = pace.across(mass);
        let gain = pace.along(row[k + 1]);
        row[k] = stepped(mass, along, out, gain, across[k]);
        across[k] = out;
    }
}

/// Makes the new masses of row `j` of a patch, as wide as `across`. That has what comes into each cell from the row
/// before, and gets what goes out of each into the row after. The row flows towards its high end. Answers the size of
/// what flows through its last x face.
#[inline(always)]
fn step_row_ahead(pace: Pace, j: usize, values: &mut [u32], across: &mut [u32]) -> u32
    requires forward { pos 0 ≤ℤ pace.x.number }
    requires inside { (j + 2) * (length across.old + 2) ≤ length values.old }
    requires ready { IsReadyRow pace (length across.old) j values.old across.old }
    ensures cells { IsSteppedRow pace (length across.old) j values.old values.new across.old }
    ensures across { (i : ℕ) → i < length across.old → slice_index across.new i ≡ y_share pace (value (length across.old) values.old (i + 1) (j + 1)) }
    ensures end { result ≡ x_share pace (x_donor pace.x.number (length across.old) values.old (length across.old) j) }
{
    let w = across.len();
    let from = (j + 1) * (w + 2) + 1;
    let first = pace.along(values[from - 1]);
    ahead(pace, first, across, &mut values[from..from + w])
}

/// The same of a row that flows towards its low end.
#[inline(always)]
fn step_row_back(pace: Pace, j: usize, values: &mut [u32], across: &mut [u32]) -> u32
    requires backward { pace.x.number <ℤ pos 0 }
    requires inside { (j + 2) * (length across.old + 2) ≤ length values.old }
    requires ready { IsReadyRow pace (length across.old) j values.old across.old }
    ensures cells { IsSteppedRow pace (length across.old) j values.old values.new across.old }
    ensures across { (i : ℕ) → i < length across.old → slice_index across.new i ≡ y_share pace (value (length across.old) values.old (i + 1) (j + 1)) }
    ensures end { result ≡ x_share pace (x_donor pace.x.number (length across.old) values.old (length across.old) j) }
{
    let w = across.len();
    let from = (j + 1) * (w + 2) + 1;
    let end = pace.along(values[from + w]);
    back(pace, across, &mut values[from..from + w + 1]);
    end
}

/// The same of any row.
#[inline(always)]
fn step_row(pace: Pace, j: usize, values: &mut [u32], across: &mut [u32]) -> u32
    requires inside { (j + 2) * (length across.old + 2) ≤ length values.old }
    requires ready { IsReadyRow pace (length across.old) j values.old across.old }
    ensures cells { IsSteppedRow pace (length across.old) j values.old values.new across.old }
    ensures across { (i : ℕ) → i < length across.old → slice_index across.new i ≡ y_share pace (value (length across.old) values.old (i + 1) (j + 1)) }
    ensures end { result ≡ x_share pace (x_donor pace.x.number (length across.old) values.old (length across.old) j) }
{
    if pace.x.number < 0 {
        step_row_back(pace, j, values, across)
    } else {
        step_row_ahead(pace, j, values, across)
    }
}

/// The same, in a call of its own: where rows go down, the compiler makes no vectors of a loop that stands in the caller's.
#[inline(never)]
fn step_row_alone(pace: Pace, j: usize, values: &mut [u32], across: &mut [u32]) -> u32
    requires inside { (j + 2) * (length across.old + 2) ≤ length values.old }
    requires ready { IsReadyRow pace (length across.old) j values.old across.old }
    ensures cells { IsSteppedRow pace (length across.old) j values.old values.new across.old }
    ensures across { (i : ℕ) → i < length across.old → slice_index across.new i ≡ y_share pace (value (length across.old) values.old (i + 1) (j + 1)) }
    ensures end { result ≡ x_share pace (x_donor pace.x.number (length across.old) values.old (length across.old) j) }
{
    step_row(pace, j, values, across)
}

/// The same, as the order of the rows wants it.
#[inline(always)]
pub(crate) fn step_row_in(
    down: bool,
    pace: Pace,
    j: usize,
    values: &mut [u32],
    across: &mut [u32],
) -> u32
    requires inside { (j + 2) * (length across.old + 2) ≤ length values.old }
    requires ready { IsReadyRow pace (length across.old) j values.old across.old }
    ensures cells { IsSteppedRow pace (length across.old) j values.old values.new across.old }
    ensures across { (i : ℕ) → i < length across.old → slice_index across.new i ≡ y_share pace (value (length across.old) values.old (i + 1) (j + 1)) }
    ensures end { result ≡ x_share pace (x_donor pace.x.number (length across.old) values.old (length across.old) j) }
{
    if down {
        step_row_alone(pace, j, values, across)
    } else {
        step_row(pace, j, values, across)
    }
}
