//! Counts of the bits in a part of the rows, a word at a look.

ghost use Rattle.std.specs.Prelude.{◌≡◌, pos, ◌-ℤ◌, ◌≤ℤ◌, ◌<ℤ◌, count_by, ℕ, ◌+◌, ◌-◌, ◌*◌, ◌/◌, ◌^◌, ◌<◌, ◌≤◌, ◌&&◌, length, nat_le};
ghost use Rattle.amr_tags.specs.Bits.{bit, bit_of, words_for};
ghost use Rattle.amr_box.specs.Cells.{IsNear, cells_of, height, holds, width};
ghost use Rattle.amr_tags.specs.Stored.{IsPart};
ghost use Rattle.amr_tags.specs.TagSets.{column_in, row_in};
ghost use Rattle.amr_tags.specs.Parts.{IsWindow, row_count, rows_from};

use crate::rows;
use amr_box::Bx;

/// The bits of a word from one on.
fn from_bit(word: u64, at: u32) -> u64
    requires { at < 64 }
    ensures { (i : ℕ) → i < 64 → bit result i ≡ (bit word i && nat_le at i) }
{
    word & (u64::MAX << at)
}

/// The bits of a word up to one.
pub fn to_bit(word: u64, at: u32) -> u64
    requires { at < 64 }
    ensures { (i : ℕ) → i < 64 → bit result i ≡ (bit word i && nat_le i at) }
{
    word & (u64::MAX >> (63 - at))
}

/// The bits of a word, whose first is the row's bit `start`, that lie in the columns from `from` to `to`.
pub fn kept(word: u64, start: u32, from: u32, to: u32) -> u64
    requires near_from { from < start + 64 }
    requires near_to { start ≤ to }
    ensures { (i : ℕ) → i < 64 → bit result i ≡ (bit word i && (nat_le from (start + i) && nat_le (start + i) to)) }
{
    let low = if from > start {
        from_bit(word, from - start)
    } else {
        word
    };
    if to - start < 64 {
        to_bit(low, to - start)
    } else {
        low
    }
}

/// How many bits of row `j` are set in the columns from `from` to `to`.
fn count_row(words: &[u64], per_row: usize, j: u32, from: u32, to: u32) -> u64
    requires order { from ≤ to }
    requires small { to < 2 ^ 26 }
    requires inside { to / 64 < per_row }
    requires there { j * per_row + per_row ≤ length words.now }
    ensures count { result ≡ row_count per_row words.now from to j }
    ensures small { result ≤ 64 * (to / 64 + 1) }
{
    let start = j as usize * per_row;
    let mut count = 0;
    for w in from / 64..to / 64 + 1 {
        let word = kept(words[start + w as usize], w * 64, from, to);
        count += u64::from(word.count_ones());
    }
    count
}

/// How many bits are set in the columns from `from` to `to` of the rows from `first` to `last`.
pub fn count_rows(words: &[u64], per_row: usize, from: u32, to: u32, first: u32, last: u32) -> u64
    requires order { from ≤ to }
    requires small { to < 2 ^ 26 }
    requires inside { to / 64 < per_row }
    requires few { last < 2 ^ 26 }
    requires rows_order { first ≤ last }
    requires there { last * per_row + per_row ≤ length words.now }
    ensures { result ≡ rows_from (row_count per_row words.now from to) first (last + 1 - first) }
{
    let mut count = 0;
    for j in first..last + 1 {
        count += count_row(words, per_row, j, from, to);
    }
    count
}

/// How many bits of the rows of the box are set in a part of it.
pub fn count_part(words: &[u64], b: &Bx, part: &Bx) -> u64
    requires near { IsNear b.now }
    requires part { IsPart b.now part.now }
    requires count { length words.now ≡ height b.now * words_for (width b.now) }
    ensures { result ≡ count_by (λ c. holds part.now c && bit_of (words_for (width b.now)) words.now (column_in b.now c) (row_in b.now c)) (cells_of b.now) }
{
    let window = window_of(b, part);
    let per_row = rows::words_for(b.width()) as usize;
    count_rows(
        words,
        per_row,
        window.west,
        window.east,
        window.south,
        window.north,
    )
}

/// Where a part's columns and rows begin and end, counted from the low corner of the box.
#[derive(Clone, Copy)]
pub struct Window {
    pub west: u32,
    pub south: u32,
    pub east: u32,
    pub north: u32,
}

/// The columns and rows of a part of a box.
pub fn window_of(b: &Bx, part: &Bx) -> Window
    requires near { IsNear b.now }
    requires part { IsPart b.now part.now }
    ensures place { IsWindow b.now part.now result.west result.south result.east result.north }
    ensures few_columns { result.east < 2 ^ 26 }
    ensures few_rows { result.north < 2 ^ 26 }
{
    let low = b.lo();
    let from = part.lo();
    let to = part.hi();
    let west = offset(low.x, from.x);
    let south = offset(low.y, from.y);
    let east = offset(low.x, to.x);
    let north = offset(low.y, to.y);
    Window {
        west,
        south,
        east,
        north,
    }
}

/// How far a coordinate lies above another.
pub fn offset(low: i32, z: i32) -> u32
    requires order { low ≤ℤ z }
    requires near { (z -ℤ low) <ℤ pos 67108864 }
    ensures value { pos result ≡ z -ℤ low }
    ensures small { result < 2 ^ 26 }
{
    (z - low) as u32
}
