//! Signatures of sets that are given as rows of truth values.
ghost use Rattle.std.specs.Prelude.{◌≡◌, ℕ, ◌+◌, ◌^◌, ◌<◌, length, IfOk, EachIndex, slice_index, slice_index_or, false};
ghost use Rattle.std.specs.Vec.{vec_len};
ghost use Rattle.amr_box.specs.declared.Axis.TheVariants.{X, Y};
ghost use Rattle.amr_def.specs.Signature.{signature};
ghost use Rattle.amr_sign.specs.Counts.{bit, count_to};
ghost use Rattle.amr_sign.specs.Rows.{HasEvenRows, columns_of, entry, frame, set_cells};

use amr_box::Axis;
use amr_causes::NoMemory;
use std::alloc::Global;

/// How many entries of a row are true.
#[tactic(auto, using(crate::proofs::Counts::count_to_more, crate::proofs::Counts::count_to_bound))]
fn row_count(row: &[bool]) -> u32
    requires { length row.now < 2 ^ 32 }
    ensures { result ≡ count_to (λ i. slice_index_or row.now i false) (length row.now) }
{
    let mut count = 0;
    for tagged in row {
        count += u32::from(*tagged);
    }
    count
}

/// Counts the true entries of a row, each to its column.
fn add_row(counts: &mut [u32], row: &[bool])
    requires same { length row.now ≡ length counts.old }
    requires room { EachIndex counts.old (λ k. slice_index counts.old k + 1 < 2 ^ 32) }
    ensures { EachIndex counts.new (λ k. slice_index counts.new k
        ≡ slice_index counts.old k + bit (slice_index_or row.now k false)) }
{
    for i in 0..row.len() {
        counts[i] += u32::from(row[i]);
    }
}

/// How many columns the rows have.
fn columns_of(rows: &[Vec<bool>]) -> usize
    ensures { result ≡ columns_of rows.now }
{
    match rows.first() {
        Some(row) => row.len(),
        None => 0,
    }
}

/// Counts the true entries of all rows, each to its row.
fn count_rows(counts: &mut [u32], rows: &[Vec<bool>])
    requires even { HasEvenRows rows.now }
    requires columns_fit { columns_of rows.now < 2 ^ 32 }
    requires whole { length counts.old ≡ length rows.now }
    ensures { EachIndex counts.new (λ j. slice_index counts.new j
        ≡ count_to (λ i. entry rows.now j i) (columns_of rows.now)) }
{
    for j in 0..rows.len() {
        counts[j] = row_count(&rows[j]);
    }
}

/// Counts the true entries of all rows, each to its column.
fn count_columns(counts: &mut [u32], rows: &[Vec<bool>])
    requires even { HasEvenRows rows.now }
    requires rows_fit { length rows.now < 2 ^ 32 }
    requires whole { length counts.old ≡ columns_of rows.now }
    requires zero { EachIndex counts.old (λ k. slice_index counts.old k ≡ 0) }
    ensures { EachIndex counts.new (λ i. slice_index counts.new i
        ≡ count_to (λ j. entry rows.now j i) (length rows.now)) }
{
    for row in rows {
        add_row(counts, row);
    }
}

fn row_counts(alloc: Global, rows: &[Vec<bool>]) -> Result<Vec<u32>, NoMemory>
    requires even { HasEvenRows rows.now }
    requires columns_fit { columns_of rows.now < 2 ^ 32 }
    ensures { IfOk result (λ v. v.items ≡ signature Y (set_cells rows.now) (frame rows.now)) }
{
    let mut counts = vec![in alloc; 0u32; rows.len()]?;
    count_rows(&mut counts, rows);
    Ok(counts)
}

fn column_counts(alloc: Global, rows: &[Vec<bool>]) -> Result<Vec<u32>, NoMemory>
    requires even { HasEvenRows rows.now }
    requires rows_fit { length rows.now < 2 ^ 32 }
    ensures { IfOk result (λ v. v.items ≡ signature X (set_cells rows.now) (frame rows.now)) }
{
    let mut counts = vec![in alloc; 0u32; columns_of(rows)]?;
    count_columns(&mut counts, rows);
    Ok(counts)
}

/// How many entries are true in each column (axis X) or in each row (axis Y), from the low end.
pub fn signature(alloc: Global, rows: &[Vec<bool>], axis: Axis) -> Result<Vec<u32>, NoMemory>
    requires even { HasEvenRows rows.now }
    requires rows_fit { length rows.now < 2 ^ 32 }
    requires columns_fit { columns_of rows.now < 2 ^ 32 }
    ensures { IfOk result (λ v. v.items ≡ signature axis (set_cells rows.now) (frame rows.now)) }
{
    match axis {
        Axis::X => column_counts(alloc, rows),
        Axis::Y => row_counts(alloc, rows),
    }
}
