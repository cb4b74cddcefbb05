//! Rows of bits coarsened by two in both directions, a word at a look.

ghost use Rattle.std.specs.Prelude.{◌≡◌, ℕ, ◌+◌, ◌*◌, ◌<◌, ◌≤◌, ◌||◌, length};
ghost use Rattle.amr_box.specs.declared.Cell.{Cell};
ghost use Rattle.amr_box.specs.Cells.{IsNear, has_child_where, height, parents_of, width};
ghost use Rattle.amr_tags.specs.Bits.{AreRows, bit, words_for};
ghost use Rattle.amr_tags.specs.Coarse.{IsEvenCorner, coarse_bit, pair, paired, there};
ghost use Rattle.amr_tags.specs.Grown.{AreBits};
ghost use Rattle.amr_tags.specs.Parts.{in_rows};

use crate::grow::with_bit;
use crate::rows;
use amr_box::Bx;

/// Whether one of the bits `2 i` and `2 i + 1` of a word is set.
fn pair(word: u64, i: u32) -> bool
    requires { i < 32 }
    ensures { result ≡ pair word i }
{
    rows::bit_at(word, 2 * i) || rows::bit_at(word, 2 * i + 1)
}

/// A bit for each two bits of two words, the low one first.
fn coarse_of(low: u64, high: u64) -> u64
    ensures { (i : ℕ) → i < 64 → bit result i ≡ paired low high i }
{
    if low | high == 0 {
        return 0;
    }
    let mut word = 0;
    for i in 0..32 {
        word = with_bit(word, i, pair(low, i));
        word = with_bit(word, i + 32, pair(high, i));
    }
    word
}

/// Word `k` of row `j`, 0 where there is none.
fn word_at(words: &[u64], per_row: usize, height: usize, k: usize, j: usize) -> u64
    requires { length words.now ≡ height * per_row }
    ensures { (b : ℕ) → b < 64 → bit result b ≡ there per_row height words.now (64 * k + b) j }
{
    if k >= per_row {
        return 0;
    }
    if j >= height {
        return 0;
    }
    words[j * per_row + k]
}

/// Word `k` of the rows `2 j` and `2 j + 1` together.
fn two_rows(words: &[u64], per_row: usize, height: usize, k: usize, j: usize) -> u64
    requires count { length words.now ≡ height * per_row }
    requires few { j < 67108864 }
    ensures { (b : ℕ) → b < 64 → bit result b
        ≡ (there per_row height words.now (64 * k + b) (2 * j) || there per_row height words.now (64 * k + b) (2 * j + 1)) }
{
    let low = word_at(words, per_row, height, k, 2 * j);
    let high = word_at(words, per_row, height, k, 2 * j + 1);
    low | high
}

/// Word `k` of coarse row `j`.
fn coarse_word(words: &[u64], per_row: usize, height: usize, k: usize, j: usize) -> u64
    requires count { length words.now ≡ height * per_row }
    requires narrow { k < 67108864 }
    requires few { j < 67108864 }
    ensures { (b : ℕ) → b < 64 → bit result b ≡ coarse_bit per_row height words.now (64 * k + b) j }
{
    let low = two_rows(words, per_row, height, 2 * k, j);
    let high = two_rows(words, per_row, height, 2 * k + 1, j);
    coarse_of(low, high)
}

/// The sizes of rows of bits.
#[derive(Clone, Copy)]
pub struct Size {
    /// How many words hold a row.
    pub per_row: usize,
    /// How many rows there are.
    pub height: usize,
}

/// All rows, coarsened.
fn coarsen_rows(words: &[u64], of: Size, out: &mut Vec<u64>, to: Size)
    requires count { length words.now ≡ of.height * of.per_row }
    requires room { length out.old.items ≡ to.height * to.per_row }
    requires narrow { to.per_row ≤ 67108864 }
    requires few { to.height ≤ 67108864 }
    ensures bits { AreBits to.per_row out.new.items (coarse_bit of.per_row of.height words.now) (length out.new.items) }
    ensures room { length out.new.items ≡ length out.old.items }
{
    for j in 0..to.height {
        for k in 0..to.per_row {
            out[j * to.per_row + k] = coarse_word(words, of.per_row, of.height, k, j);
        }
    }
}

/// The size of the rows of a box.
fn size_of(b: &Bx) -> Size
    requires { IsNear b.now }
    ensures per_row { result.per_row ≡ words_for (width b.now) }
    ensures height { result.height ≡ height b.now }
{
    Size {
        per_row: rows::words_for(b.width()) as usize,
        height: b.height() as usize,
    }
}

/// Sets the bits of the cells of a coarse box that have a child in the rows of a box.
pub fn coarsen_box(words: &[u64], b: &Bx, out: &mut Vec<u64>, coarse: &Bx)
    requires near { IsNear b.now }
    requires even { IsEvenCorner b.now.lo }
    requires rows { AreRows (width b.now) (height b.now) words.now }
    requires near_coarse { IsNear coarse.now }
    requires parents { coarse.now ≡ parents_of b.now }
    requires room { length out.old.items ≡ height coarse.now * words_for (width coarse.now) }
    ensures rows { AreRows (width coarse.now) (height coarse.now) out.new.items }
    ensures room { length out.new.items ≡ length out.old.items }
    ensures cells { (c : Cell) → in_rows coarse.now out.new.items c ≡ has_child_where (in_rows b.now words.now) c }
{
    coarsen_rows(words, size_of(b), out, size_of(coarse));
}
