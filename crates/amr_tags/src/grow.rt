//! Rows of bits grown by one place on each side, a word at a look.

ghost use Rattle.std.specs.Prelude.{◌≡◌, false, ℕ, ◌+◌, ◌-◌, ◌*◌, ◌/◌, ◌%◌, ◌<◌, ◌≤◌, ◌^◌, ◌&&◌, ◌||◌, ◌==◌, length, nat_lt};
ghost use Rattle.amr_tags.specs.Bits.{AreRows, bit, bit_of, words_for};
ghost use Rattle.amr_box.specs.declared.Cell.{Cell};
ghost use Rattle.amr_box.specs.Cells.{IsNear, height, holds, width};
ghost use Rattle.amr_tags.specs.TagSets.{has, is_near_tag, tag_set};
ghost use Rattle.amr_tags.specs.Grown.{AreBits, after, before, grown_bit, heightened, widened};

use crate::{rows, scan};
use amr_box::Bx;

/// The bits of a word one place up, with a new first one.
fn up(word: u64, first: bool) -> u64
    ensures first { bit result 0 ≡ first }
    ensures others { (i : ℕ) → i < 63 → bit result (i + 1) ≡ bit word i }
{
    with_bit(word << 1, 0, first)
}

/// The bits of a word one place down, with a new last one.
fn down(word: u64, last: bool) -> u64
    ensures last { bit result 63 ≡ last }
    ensures others { (i : ℕ) → i < 63 → bit result i ≡ bit word (i + 1) }
{
    with_bit(word >> 1, 63, last)
}

/// A word, and one bit more if it is on.
pub fn with_bit(word: u64, at: u32, on: bool) -> u64
    requires { at < 64 }
    ensures { (i : ℕ) → i < 64 → bit result i ≡ (bit word i || (on && (i == at))) }
{
    if on { word | (1 << at) } else { word }
}

/// The bits of three words together.
fn joined(a: u64, b: u64, c: u64) -> u64
    ensures { (i : ℕ) → i < 64 → bit result i ≡ (bit a i || (bit b i || bit c i)) }
{
    a | (b | c)
}

/// Bit `i` of row `j`.
fn get(words: &[u64], per_row: usize, i: usize, j: usize) -> bool
    requires there { j * per_row + i / 64 < length words.now }
    ensures { result ≡ bit_of per_row words.now i j }
{
    rows::bit_at(words[j * per_row + i / 64], (i % 64) as u32)
}

/// The bit before the first one of word `k` of row `j`.
fn bit_before(words: &[u64], per_row: usize, width: usize, wrap: bool, k: usize, j: usize) -> bool
    requires shape { per_row ≡ words_for width }
    requires some { 1 ≤ width }
    requires small { width < 2 ^ 26 }
    requires inside { k < per_row }
    requires there { j * per_row + per_row ≤ length words.now }
    ensures { result ≡ before wrap width (λ i. bit_of per_row words.now i j) (64 * k) }
{
    if k > 0 {
        get(words, per_row, 64 * k - 1, j)
    } else {
        wrap && get(words, per_row, width - 1, j)
    }
}

/// The bit after the last one of word `k` of row `j`, where a word follows.
fn bit_after(words: &[u64], per_row: usize, k: usize, j: usize) -> bool
    requires few { per_row < 2 ^ 26 }
    requires inside { k < per_row }
    requires there { j * per_row + per_row ≤ length words.now }
    ensures { result ≡ (nat_lt (k + 1) per_row && bit_of per_row words.now (64 * (k + 1)) j) }
{
    k + 1 < per_row && get(words, per_row, 64 * (k + 1), j)
}

/// The bit after the last one of row `j`: its first one where the axis wraps.
fn bit_around(words: &[u64], per_row: usize, wrap: bool, j: usize) -> bool
    requires some { 1 ≤ per_row }
    requires there { j * per_row + per_row ≤ length words.now }
    ensures { result ≡ (wrap && bit_of per_row words.now 0 j) }
{
    wrap && get(words, per_row, 0, j)
}

/// Word `k` of row `j`, each of its bits with those beside it in the row.
fn widened_word(words: &[u64], per_row: usize, width: usize, wrap: bool, k: usize, j: usize) -> u64
    requires shape { per_row ≡ words_for width }
    requires some { 1 ≤ width }
    requires small { width < 2 ^ 26 }
    requires inside { k < per_row }
    requires there { j * per_row + per_row ≤ length words.now }
    requires unused { (i : ℕ) → width ≤ i → i < 64 * per_row → bit_of per_row words.now i j ≡ false }
    ensures { (b : ℕ) → b < 64 → bit result b ≡ widened wrap width per_row words.now (64 * k + b) j }
{
    let word = words[j * per_row + k];
    let first = bit_before(words, per_row, width, wrap, k, j);
    let last = bit_after(words, per_row, k, j);
    let all = joined(word, up(word, first), down(word, last));
    if k + 1 < per_row {
        all
    } else {
        let end = ((width - 1) % 64) as u32;
        let around = bit_around(words, per_row, wrap, j);
        scan::to_bit(with_bit(all, end, around), end)
    }
}

/// The rows, each bit with those beside it in its row.
fn widen(words: &[u64], out: &mut Vec<u64>, per_row: usize, width: usize, height: usize, wrap: bool)
    requires shape { per_row ≡ words_for width }
    requires some { 1 ≤ width }
    requires small { width < 2 ^ 26 }
    requires count { length words.now ≡ height * per_row }
    requires unused { (i j : ℕ) → width ≤ i → i < 64 * per_row → j < height → bit_of per_row words.now i j ≡ false }
    requires room { length out.old.items ≡ length words.now }
    ensures bits { AreBits per_row out.new.items (widened wrap width per_row words.now) (length words.now) }
    ensures room { length out.new.items ≡ length words.now }
{
    for j in 0..height {
        for k in 0..per_row {
            out[j * per_row + k] = widened_word(words, per_row, width, wrap, k, j);
        }
    }
}

/// Word `k` of the row before row `j`.
fn word_before(words: &[u64], per_row: usize, height: usize, wrap: bool, k: usize, j: usize) -> u64
    requires inside { k < per_row }
    requires row { j < height }
    requires count { length words.now ≡ height * per_row }
    ensures { (b : ℕ) → b < 64 → bit result b ≡ before wrap height (λ r. bit_of per_row words.now (64 * k + b) r) j }
{
    if j > 0 {
        words[(j - 1) * per_row + k]
    } else if wrap {
        words[(height - 1) * per_row + k]
    } else {
        0
    }
}

/// Word `k` of the row after row `j`.
fn word_after(words: &[u64], per_row: usize, height: usize, wrap: bool, k: usize, j: usize) -> u64
    requires inside { k < per_row }
    requires row { j < height }
    requires count { length words.now ≡ height * per_row }
    ensures { (b : ℕ) → b < 64 → bit result b ≡ after wrap height (λ r. bit_of per_row words.now (64 * k + b) r) j }
{
    if j + 1 < height {
        words[(j + 1) * per_row + k]
    } else if wrap {
        words[k]
    } else {
        0
    }
}

/// Word `k` of row `j`, each of its bits with those beside it in its column.
fn heightened_word(
    words: &[u64],
    per_row: usize,
    height: usize,
    wrap: bool,
    k: usize,
    j: usize,
) -> u64
    requires inside { k < per_row }
    requires row { j < height }
    requires count { length words.now ≡ height * per_row }
    ensures { (b : ℕ) → b < 64 → bit result b ≡ heightened wrap height per_row words.now (64 * k + b) j }
{
    let word = words[j * per_row + k];
    let before = word_before(words, per_row, height, wrap, k, j);
    let after = word_after(words, per_row, height, wrap, k, j);
    joined(word, before, after)
}

/// The rows, each bit with those beside it in its column.
fn heighten(words: &[u64], out: &mut Vec<u64>, per_row: usize, height: usize, wrap: bool)
    requires count { length words.now ≡ height * per_row }
    requires room { length out.old.items ≡ length words.now }
    ensures bits { AreBits per_row out.new.items (heightened wrap height per_row words.now) (length words.now) }
    ensures room { length out.new.items ≡ length words.now }
{
    for j in 0..height {
        for k in 0..per_row {
            out[j * per_row + k] = heightened_word(words, per_row, height, wrap, k, j);
        }
    }
}

/// The rows, each bit with the eight round it: first along its row, then along its column.
pub fn grow_once(
    words: &mut Vec<u64>,
    spare: &mut Vec<u64>,
    width: usize,
    height: usize,
    wrap_x: bool,
    wrap_y: bool,
)
    requires some { 1 ≤ width }
    requires small { width < 2 ^ 26 }
    requires rows { AreRows width height words.old.items }
    requires room { length spare.old.items ≡ length words.old.items }
    ensures rows { AreRows width height words.new.items }
    ensures room { length spare.new.items ≡ length words.new.items }
    ensures bits { (i j : ℕ) → i < width → j < height
        → bit_of (words_for width) words.new.items i j ≡ grown_bit wrap_x wrap_y width height words.old.items i j }
{
    let per_row = rows::words_for(width as u32) as usize;
    widen(words, spare, per_row, width, height, wrap_x);
    heighten(spare, words, per_row, height, wrap_y);
}

/// The set of cells of the box by `n` cells on all sides.
pub fn grow_by(
    words: &mut Vec<u64>,
    spare: &mut Vec<u64>,
    b: &Bx,
    wrap_x: bool,
    wrap_y: bool,
    n: u32,
)
    requires near { IsNear b.now }
    requires rows { AreRows (width b.now) (height b.now) words.old.items }
    requires room { length spare.old.items ≡ length words.old.items }
    ensures rows { AreRows (width b.now) (height b.now) words.new.items }
    ensures room { length spare.new.items ≡ length words.new.items }
    ensures cells { (c : Cell) → has (tag_set b.now wrap_x wrap_y words.new.items) c
        ≡ (holds b.now c && is_near_tag (tag_set b.now wrap_x wrap_y words.old.items) n c) }
{
    let width = b.width() as usize;
    let height = b.height() as usize;
    for _step in 0..n {
        grow_once(words, spare, width, height, wrap_x, wrap_y);
    }
}
