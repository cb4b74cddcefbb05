//! The bits of a part of the rows set, a word at a look.

ghost use Rattle.std.specs.Prelude.{◌≡◌, ℕ, ◌+◌, ◌*◌, ◌/◌, ◌<◌, ◌≤◌, ◌^◌, ◌&&◌, ◌||◌, length};
ghost use Rattle.amr_box.specs.Cells.{IsNear, height, holds, width};
ghost use Rattle.amr_box.specs.declared.Cell.{Cell};
ghost use Rattle.amr_tags.specs.Bits.{AreRows, bit_of, words_for};
ghost use Rattle.amr_tags.specs.Parts.{in_rows, with_part, with_row};
ghost use Rattle.amr_tags.specs.Stored.{IsPart};
ghost use Rattle.amr_tags.specs.TagSets.{column_in, row_in};

use crate::{rows, scan};
use amr_box::Bx;

/// Sets the bits of row `j` in the columns from `from` to `to`.
fn set_row(words: &mut Vec<u64>, per_row: usize, j: u32, from: u32, to: u32)
    requires order { from ≤ to }
    requires small { to < 2 ^ 26 }
    requires inside { to / 64 < per_row }
    requires there { j * per_row + per_row ≤ length words.old.items }
    ensures bits { (i r : ℕ) → i / 64 < per_row → bit_of per_row words.new.items i r ≡ with_row per_row words.old.items j from to i r }
    ensures count { length words.new.items ≡ length words.old.items }
{
    let start = j as usize * per_row;
    for w in from / 64..to / 64 + 1 {
        let mask = scan::kept(u64::MAX, w * 64, from, to);
        let k = start + w as usize;
        words[k] = words[k] | mask;
    }
}

/// Sets the bits of the rows from `first` to `last` in the columns from `from` to `to`.
fn set_rows(words: &mut Vec<u64>, per_row: usize, from: u32, to: u32, first: u32, last: u32)
    requires order { from ≤ to }
    requires small { to < 2 ^ 26 }
    requires inside { to / 64 < per_row }
    requires few { last < 2 ^ 26 }
    requires rows_order { first ≤ last }
    requires there { last * per_row + per_row ≤ length words.old.items }
    ensures bits { (i r : ℕ) → i / 64 < per_row → bit_of per_row words.new.items i r ≡ with_part per_row words.old.items from to first last i r }
    ensures count { length words.new.items ≡ length words.old.items }
{
    for j in first..last + 1 {
        set_row(words, per_row, j, from, to);
    }
}

/// Sets the bits of a part of the box.
fn set_part(words: &mut Vec<u64>, b: &Bx, part: &Bx)
    requires near { IsNear b.now }
    requires part { IsPart b.now part.now }
    requires rows { AreRows (width b.now) (height b.now) words.old.items }
    ensures rows { AreRows (width b.now) (height b.now) words.new.items }
    ensures count { length words.new.items ≡ length words.old.items }
    ensures cells { (c : Cell) → in_rows b.now words.new.items c ≡ (in_rows b.now words.old.items c || (holds b.now c && holds part.now c)) }
{
    let window = scan::window_of(b, part);
    let per_row = rows::words_for(b.width()) as usize;
    set_rows(
        words,
        per_row,
        window.west,
        window.east,
        window.south,
        window.north,
    );
}

/// Sets the bits of the cells of a box that lie in the rows' box.
pub fn set_common(words: &mut Vec<u64>, b: &Bx, other: &Bx)
    requires near { IsNear b.now }
    requires rows { AreRows (width b.now) (height b.now) words.old.items }
    ensures rows { AreRows (width b.now) (height b.now) words.new.items }
    ensures count { length words.new.items ≡ length words.old.items }
    ensures cells { (c : Cell) → in_rows b.now words.new.items c ≡ (in_rows b.now words.old.items c || (holds b.now c && holds other.now c)) }
{
    match b.meet(other) {
        None => {}
        Some(part) => set_part(words, b, &part),
    }
}
