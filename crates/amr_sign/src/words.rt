//! Signatures of sets that are given as rows of bits, by whole words.
ghost use Rattle.std.specs.Prelude.{◌≡◌, ◌==◌, ℕ, ◌+◌, ◌-◌, ◌*◌, ◌/◌, ◌%◌, ◌^◌, ◌<◌, ◌≤◌, ◌&&◌, ◌≤ℤ◌, pos, true};
ghost use Rattle.std.specs.Prelude.{length, IfOk, EachIndex, slice_index, nat_le, nat_lt};
ghost use Rattle.std.specs.Int.{bit_at};
ghost use Rattle.amr_box.specs.declared.Axis.TheVariants.{X, Y};
ghost use Rattle.amr_def.specs.Signature.{signature};
ghost use Rattle.amr_sign.specs.Counts.{bit, count_to};
ghost use Rattle.amr_sign.specs.Words.{LiesInRows, bit_cells, bit_of, row_bit, word_bit};

use crate::both::{Signatures, both_signatures};
use amr_box::{Axis, Bx};
use amr_causes::NoMemory;
use std::alloc::Global;

/// How many bits a word has.
pub const BITS: usize = 64;

/// The bits from `from` to `to`, both inside.
fn mask(from: u32, to: u32) -> u64
    requires from_inside { from < 64 }
    requires to_inside { to < 64 }
    ensures { (i : ℕ) → i < 64 → bit_at result i ≡ bit (nat_le from i && nat_le i to) }
{
    (u64::MAX << from) & (u64::MAX >> (63 - to))
}

/// Word `k` of a row without the bits below `low` and above `high`, which are places in the row.
pub fn masked_word(row: &[u64], k: usize, low: usize, high: usize) -> u64
    requires inside { k < length row.now }
    requires first { low < 64 * k + 64 }
    requires last { 64 * k ≤ high }
    requires short { high < 2 ^ 31 }
    ensures { (i : ℕ) → i < 64 → (bit_at result i == 1)
        ≡ ((nat_le low (64 * k + i) && nat_le (64 * k + i) high) && row_bit row.now (64 * k + i)) }
{
    let word = row[k];
    if word == 0 {
        return 0;
    }
    let base = 64 * k;
    let from = low.saturating_sub(base);
    let to = (high - base).min(63);
    word & mask(from as u32, to as u32)
}

/// How many bits of a row are 1 from `low` to `high`, both inside.
fn count_in_row(row: &[u64], low: usize, high: usize) -> u32
    requires order { low ≤ high }
    requires inside { high < 64 * length row.now }
    requires short { high < 2 ^ 31 }
    ensures { result ≡ count_to (λ i. row_bit row.now (low + i)) (high + 1 - low) }
{
    let mut count = 0;
    for k in low / BITS..high / BITS + 1 {
        count += masked_word(row, k, low, high).count_ones();
    }
    count
}

/// Counts the bits of a word, which stands in its row at the places from `base` on, each to its column. Column 0 is `low`.
pub fn add_word(counts: &mut [u32], word: u64, base: usize, low: usize)
    requires inside { (i : ℕ) → i < 64 → (bit_at word i == 1) ≡ true
        → (low ≤ base + i) × (base + i < low + length counts.old) }
    requires room { EachIndex counts.old (λ c. slice_index counts.old c + 1 < 2 ^ 32) }
    requires short { base < 2 ^ 31 }
    ensures { EachIndex counts.new (λ c. slice_index counts.new c
        ≡ slice_index counts.old c + bit (word_bit word base (low + c))) }
{
    let mut rest = word;
    while rest != 0 {
        let place = rest.trailing_zeros();
        counts[base + place as usize - low] += 1;
        rest &= !(1 << place);
    }
}

/// A box of rows of bits by its first and last column and row, all inside, counted from 0.
#[derive(Clone, Copy)]
pub struct Window {
    pub west: usize,
    pub east: usize,
    pub south: usize,
    pub north: usize,
}

/// A coordinate that is not below 0.
fn place(z: i32) -> usize
    requires { pos 0 ≤ℤ z }
    ensures value { pos result ≡ z }
    ensures small { result < 2 ^ 31 }
{
    z as usize
}

/// The columns and rows of a box as a window.
pub fn window_of(part: Bx) -> Window
    requires west_inside { pos 0 ≤ℤ part.lo.x }
    requires south_inside { pos 0 ≤ℤ part.lo.y }
    ensures west { pos result.west ≡ part.lo.x }
    ensures east { pos result.east ≡ part.hi.x }
    ensures south { pos result.south ≡ part.lo.y }
    ensures north { pos result.north ≡ part.hi.y }
    ensures wide { result.west ≤ result.east }
    ensures high { result.south ≤ result.north }
    ensures east_small { result.east < 2 ^ 31 }
    ensures north_small { result.north < 2 ^ 31 }
{
    let (lo, hi) = (part.lo(), part.hi());
    Window {
        west: place(lo.x),
        east: place(hi.x),
        south: place(lo.y),
        north: place(hi.y),
    }
}

/// Counts the bits of a window, each to its row.
fn count_rows(counts: &mut [u32], words: &[u64], per_row: usize, at: Window)
    requires wide { at.west ≤ at.east }
    requires high { at.south ≤ at.north }
    requires columns_fit { at.east < 2 ^ 31 }
    requires rows_fit { at.north < 2 ^ 31 }
    requires columns_inside { at.east < 64 * per_row }
    requires rows_inside { (at.north + 1) * per_row ≤ length words.now }
    requires whole { length counts.old ≡ at.north + 1 - at.south }
    ensures { EachIndex counts.new (λ j. slice_index counts.new j
        ≡ count_to (λ i. bit_of per_row words.now (at.west + i) (at.south + j)) (at.east + 1 - at.west)) }
{
    for y in at.south..at.north + 1 {
        let row = &words[y * per_row..(y + 1) * per_row];
        counts[y - at.south] = count_in_row(row, at.west, at.east);
    }
}

fn column_counts(
    alloc: Global,
    words: &[u64],
    per_row: usize,
    part: Bx,
) -> Result<Vec<u32>, NoMemory>
    requires inside { LiesInRows words.now per_row part }
    ensures { IfOk result (λ v. v.items ≡ signature X (bit_cells words.now per_row part) part) }
{
    let Signatures { columns, rows: _ } = both_signatures(alloc, words, per_row, part)?;
    Ok(columns)
}

fn row_counts(alloc: Global, words: &[u64], per_row: usize, part: Bx) -> Result<Vec<u32>, NoMemory>
    requires inside { LiesInRows words.now per_row part }
    ensures { IfOk result (λ v. v.items ≡ signature Y (bit_cells words.now per_row part) part) }
{
    let at = window_of(part);
    let mut counts = vec![in alloc; 0u32; at.north + 1 - at.south]?;
    count_rows(&mut counts, words, per_row, at);
    Ok(counts)
}

/// How many bits of a box are 1 in each of its columns (axis X) or rows (axis Y), from the low end.
///
/// The rows stand one after another in `words`, each in `per_row` words: bit `i` of a row is bit `i % 64` of its word
/// `i / 64`. `part` counts columns and rows from the low corner of all rows, and lies in them.
pub fn signature_bits(
    alloc: Global,
    words: &[u64],
    per_row: usize,
    part: Bx,
    axis: Axis,
) -> Result<Vec<u32>, NoMemory>
    requires positive { 1 ≤ per_row }
    requires whole { length words.now % per_row ≡ 0 }
    requires inside { LiesInRows words.now per_row part }
    ensures { IfOk result (λ v. v.items ≡ signature axis (bit_cells words.now per_row part) part) }
{
    match axis {
        Axis::X => column_counts(alloc, words, per_row, part),
        Axis::Y => row_counts(alloc, words, per_row, part),
    }
}
