//! The signatures of a box along both axes, by one look at each word.

ghost use Rattle.std.specs.Prelude.{◌≡◌, ℕ, ◌+◌, ◌-◌, ◌*◌, ◌^◌, ◌<◌, ◌≤◌, length, IfOk, EachIndex, slice_index};
ghost use Rattle.amr_box.specs.declared.Axis.TheVariants.{X, Y};
ghost use Rattle.amr_def.specs.Signature.{signature};
ghost use Rattle.amr_sign.specs.Counts.{count_to};
ghost use Rattle.amr_sign.specs.Words.{LiesInRows, bit_cells, bit_of};

use crate::stretches::{add_row_stretches, count_open};
use crate::words::{Window, window_of};
use amr_box::Bx;
use amr_causes::NoMemory;
use std::alloc::Global;

/// How many tags stand in each column and in each row of a box, from the low end.
#[derive(Debug, Drop)]
pub struct Signatures {
    pub columns: Vec<u32>,
    pub rows: Vec<u32>,
}

/// Counts the bits of a window, each to its column and to its row. `ended` is room for the work.
fn count_window(
    columns: &mut [u32],
    ended: &mut [u32],
    rows: &mut [u32],
    words: &[u64],
    per_row: usize,
    at: Window,
)
    requires wide { at.west ≤ at.east }
    requires high { at.south ≤ at.north }
    requires columns_fit { at.east < 2 ^ 31 }
    requires rows_fit { at.north < 2 ^ 31 }
    requires columns_inside { at.east < 64 * per_row }
    requires rows_inside { (at.north + 1) * per_row ≤ length words.now }
    requires all_columns { length columns.old ≡ at.east + 1 - at.west }
    requires all_ended { length ended.old ≡ at.east + 2 - at.west }
    requires all_rows { length rows.old ≡ at.north + 1 - at.south }
    requires zero { EachIndex columns.old (λ k. slice_index columns.old k ≡ 0) }
    requires zero_ended { EachIndex ended.old (λ k. slice_index ended.old k ≡ 0) }
    ensures columns { EachIndex columns.new (λ i. slice_index columns.new i
        ≡ count_to (λ j. bit_of per_row words.now (at.west + i) (at.south + j)) (at.north + 1 - at.south)) }
    ensures rows { EachIndex rows.new (λ j. slice_index rows.new j
        ≡ count_to (λ i. bit_of per_row words.now (at.west + i) (at.south + j)) (at.east + 1 - at.west)) }
{
    for y in at.south..at.north + 1 {
        let row = &words[y * per_row..(y + 1) * per_row];
        rows[y - at.south] = add_row_stretches(columns, ended, row, at.west, at.east);
    }
    count_open(columns, ended);
}

/// How many bits of a box are 1 in each of its columns and in each of its rows, as `signature_bits` has them for one
/// axis. The words are gone over once; a stretch of bits takes as long as a single one.
pub fn both_signatures(
    alloc: Global,
    words: &[u64],
    per_row: usize,
    part: Bx,
) -> Result<Signatures, NoMemory>
    requires inside { LiesInRows words.now per_row part }
    ensures columns { IfOk result (λ s. s.columns.items ≡ signature X (bit_cells words.now per_row part) part) }
    ensures rows { IfOk result (λ s. s.rows.items ≡ signature Y (bit_cells words.now per_row part) part) }
{
    let at = window_of(part);
    let mut columns = vec![in alloc; 0u32; at.east + 1 - at.west]?;
    let mut ended = vec![in alloc; 0u32; at.east + 2 - at.west]?;
    let mut rows = vec![in alloc; 0u32; at.north + 1 - at.south]?;
    count_window(&mut columns, &mut ended, &mut rows, words, per_row, at);
    Ok(Signatures { columns, rows })
}
