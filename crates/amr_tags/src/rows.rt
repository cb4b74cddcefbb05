//! Rows of bits in words of 64.

ghost use Rattle.std.specs.Prelude.{◌≡◌, ℕ, ◌+◌, ◌*◌, ◌/◌, ◌%◌, ◌^◌, ◌<◌, ◌≤◌, IfOk, IsTrue, bit_or, length, replicate, slice_index, slice_set};
ghost use Rattle.amr_box.specs.Cells.{IsNear, height, holds, width};
ghost use Rattle.amr_tags.specs.Bits.{bit, bit_of, words_for};
ghost use Rattle.amr_tags.specs.Stored.{IsIn};
ghost use Rattle.amr_tags.specs.TagSets.{column_in, row_in};

use amr_box::{Bx, Cell};
use amr_causes::NoMemory;
use std::alloc::Global;

/// How many words hold a row of bits.
pub fn words_for(width: u32) -> u32
    requires { width ≤ 2 ^ 26 }
    ensures { result ≡ words_for width }
{
    (width + 63) / 64
}

/// Rows of bits for the box, all of them 0.
pub fn empty(alloc: Global, b: &Bx) -> Result<Vec<u64>, NoMemory>
    requires { IsNear b.now }
    ensures { IfOk result (λ words. words.items ≡ replicate (height b.now * words_for (width b.now)) 0) }
{
    let count = b.height() as usize * words_for(b.width()) as usize;
    let words = vec![in alloc; 0; count]?;
    Ok(words)
}

/// Where a cell of the box stands: its word, and its bit there.
fn place(b: &Bx, c: Cell) -> (usize, u32)
    requires near { IsNear b.now }
    requires inside { IsIn b.now c }
    ensures word { result.0 ≡ row_in b.now c * words_for (width b.now) + column_in b.now c / 64 }
    ensures at { result.1 ≡ column_in b.now c % 64 }
    ensures bound { result.0 < height b.now * words_for (width b.now) }
    ensures small { result.1 < 64 }
{
    let row = row_of(b, c);
    let column = column_of(b, c);
    let per_row = words_for(b.width());
    (
        row as usize * per_row as usize + (column / 64) as usize,
        column % 64,
    )
}

fn column_of(b: &Bx, c: Cell) -> u32
    requires near { IsNear b.now }
    requires inside { IsIn b.now c }
    ensures value { result ≡ column_in b.now c }
    ensures bound { result < width b.now }
{
    (c.x - b.lo().x) as u32
}

fn row_of(b: &Bx, c: Cell) -> u32
    requires near { IsNear b.now }
    requires inside { IsIn b.now c }
    ensures value { result ≡ row_in b.now c }
    ensures bound { result < height b.now }
{
    (c.y - b.lo().y) as u32
}

/// The bit of a cell of the box.
pub fn get_bit(words: &[u64], b: &Bx, c: Cell) -> bool
    requires near { IsNear b.now }
    requires inside { IsTrue (holds b.now c) }
    requires count { length words.now ≡ height b.now * words_for (width b.now) }
    ensures { result ≡ bit_of (words_for (width b.now)) words.now (column_in b.now c) (row_in b.now c) }
{
    let (word, at) = place(b, c);
    bit_at(words[word], at)
}

pub fn bit_at(word: u64, at: u32) -> bool
    requires { at < 64 }
    ensures { result ≡ bit word at }
{
    (word >> at) & 1 == 1
}

/// Sets the bit of a cell of the box.
pub fn set_bit(words: &mut Vec<u64>, b: &Bx, c: Cell)
    requires near { IsNear b.now }
    requires inside { IsTrue (holds b.now c) }
    requires count { length words.old.items ≡ height b.now * words_for (width b.now) }
    ensures { words.new.items ≡ slice_set words.old.items (row_in b.now c * words_for (width b.now) + column_in b.now c / 64)
        (bit_or (slice_index words.old.items (row_in b.now c * words_for (width b.now) + column_in b.now c / 64))
        (1 * 2 ^ (column_in b.now c % 64) % 2 ^ 64)) }
{
    let (word, at) = place(b, c);
    words[word] = words[word] | (1 << at);
}
