//! Tags: the cells of a box where a finer level is wanted, as rows of bits.
#![tactic(auto)]

ghost use Rattle.std.specs.Prelude.{◌≡◌, ◌↔◌, true, false, ◌||◌, ◌&&◌, IfOk, IfSome, IsNone, IsTrue, count_by};
ghost use Rattle.amr_box.specs.Cells.{IsNear, cells_of, has_child_where, holds, is_same_cell, parents_of, width};
ghost use Rattle.amr_box.specs.declared.Cell.{Cell};
ghost use Rattle.amr_tags.specs.Bits.{words_for};
ghost use Rattle.amr_tags.specs.Coarse.{IsEvenCorner};
ghost use Rattle.amr_tags.specs.TagSets.{IsLaidOut, IsLeastBox, SameShape, has, is_near_tag};

mod coarsen;
mod edges;
mod fill;
mod grow;
mod join;
mod rows;
mod scan;

use amr_box::{Bx, Cell};
use amr_causes::NoMemory;
use std::alloc::Global;
use std::marker::Model;

/// A set of cells of a box, whose axes are periodic (`wrap_x`, `wrap_y`) or open. A row of cells is a row of bits in
/// words of 64. The cell in column i of the box is bit `i mod 64` of the row's word `i div 64`. Unused bits are 0.
#[derive(Drop)]
pub struct Tags {
    bx: Bx,
    wrap_x: bool,
    wrap_y: bool,
    words: Vec<u64>,
    spare: Vec<u64>,
}

impl Model for Tags {
    ghost use Rattle.amr_tags.specs.TagSets.{TagSet};

    ghost Value = { TagSet };

    ghost use Rattle.amr_tags.specs.Stored.{IsStored};

    ghost view = { λ t. record { bx = t.bx; wrap_x = t.wrap_x; wrap_y = t.wrap_y; words = t.words.items } };

    ghost invariant = { λ t. IsStored t.bx t.words.items t.spare.items };
}

impl Tags {
    /// No tags in the box, whose coordinates lie between -2^24 and 2^24. All memory that `grow` needs is taken here.
    pub fn make(alloc: Global, b: Bx, wrap_x: bool, wrap_y: bool) -> Result<Tags, NoMemory>
        requires { IsNear b }
        ensures in_box { IfOk result (λ t. t.bx ≡ b) }
        ensures axes { IfOk result (λ t. (t.wrap_x ≡ wrap_x) × (t.wrap_y ≡ wrap_y)) }
        ensures empty { IfOk result (λ t. (c : Cell) → has t c ≡ false) }
    {
        let words = rows::empty(alloc, &b)?;
        let spare = rows::empty(alloc, &b)?;
        Ok(Tags {
            bx: b,
            wrap_x,
            wrap_y,
            words,
            spare,
        })
    }

    /// The same tags.
    pub fn copy(&self) -> Result<Tags, NoMemory>
        ensures { IfOk result (λ t. t ≡ self.now) }
    {
        let alloc = *self.words.allocator();
        let words = Vec::from_slice(alloc, self.words.as_slice())?;
        let spare = Vec::from_slice(alloc, self.spare.as_slice())?;
        Ok(Tags {
            bx: self.bx,
            wrap_x: self.wrap_x,
            wrap_y: self.wrap_y,
            words,
            spare,
        })
    }

    /// The box whose cells may be tagged.
    pub fn bx(&self) -> Bx
        ensures value { result ≡ self.now.bx }
        ensures near { IsNear self.now.bx }
    {
        let _words = self.words.len();
        self.bx
    }

    /// The rows' words, one row after the other from the low row, `per_row` words each.
    pub fn words(&self) -> &[u64]
        ensures words { result.now ≡ self.now.words }
        ensures laid_out { IsLaidOut self.now }
    {
        self.words.as_slice()
    }

    /// How many words hold a row.
    pub fn per_row(&self) -> usize
        ensures { result ≡ words_for (width self.now.bx) }
    {
        rows::words_for(self.bx().width()) as usize
    }

    /// Tags a cell of the box.
    pub fn set(&mut self, c: Cell)
        requires { IsTrue (holds self.old.bx c) }
        ensures shape { SameShape self.old self.new }
        ensures cells { (d : Cell) → has self.new d ≡ (has self.old d || is_same_cell c d) }
    {
        let bx = self.bx;
        rows::set_bit(&mut self.words, &bx, c);
    }

    /// Tags the cells of a box, as far as they lie in the set's box, a word at a look.
    pub fn set_in(&mut self, b: Bx)
        ensures shape { SameShape self.old self.new }
        ensures cells { (c : Cell) → has self.new c ≡ (has self.old c || (holds self.old.bx c && holds b c)) }
    {
        let bx = self.bx;
        fill::set_common(&mut self.words, &bx, &b);
    }

    /// Adds the tags of another set over the same box, a word at a look.
    pub fn join(&mut self, other: &Tags)
        requires { other.now.bx ≡ self.old.bx }
        ensures shape { SameShape self.old self.new }
        ensures cells { (c : Cell) → has self.new c ≡ (has self.old c || has other.now c) }
    {
        join::join_words(&mut self.words, other.words());
    }

    /// The parents of the tagged cells (BoxLib's tags, coarsened by 2), over the parents of the box's cells. The axes stay,
    /// and the box begins in an even column and row. After `NoMemory` the set, which is only read, is as before.
    pub fn coarsened(&self) -> Result<Tags, NoMemory>
        requires { IsEvenCorner self.now.bx.lo }
        ensures in_box { IfOk result (λ t. t.bx ≡ parents_of self.now.bx) }
        ensures axes { IfOk result (λ t. (t.wrap_x ≡ self.now.wrap_x) × (t.wrap_y ≡ self.now.wrap_y)) }
        ensures cells { IfOk result (λ t. (c : Cell) → has t c ≡ has_child_where (has self.now) c) }
    {
        let alloc = *self.words.allocator();
        let bx = self.bx.coarsen2();
        let mut coarse = Tags::make(alloc, bx, self.wrap_x, self.wrap_y)?;
        coarsen::coarsen_box(&self.words, &self.bx, &mut coarse.words, &bx);
        Ok(coarse)
    }

    /// Grows the set by `n` cells on all sides, at the corners too. Past the end of a periodic axis it goes on at the
    /// other end, and at the end of an open one it stops. The buffer of Berger and Colella's tags: it is meant for a
    /// problem's buffer, 0 to 8 cells, but any `n` is allowed, and the time grows with `n`.
    pub fn grow(&mut self, n: u32)
        ensures shape { SameShape self.old self.new }
        ensures cells { (c : Cell) → has self.new c ≡ (holds self.old.bx c && is_near_tag self.old n c) }
    {
        let bx = self.bx;
        grow::grow_by(
            &mut self.words,
            &mut self.spare,
            &bx,
            self.wrap_x,
            self.wrap_y,
            n,
        );
    }

    /// Whether a cell is tagged; none outside of the box is.
    pub fn has(&self, c: Cell) -> bool
        ensures { result ≡ has self.now c }
    {
        self.bx.holds(c) && rows::get_bit(&self.words, &self.bx, c)
    }

    /// The least box round the tagged cells, None exactly where none is tagged.
    pub fn bounding(&self) -> Option<Bx>
        ensures none { IsNone result ↔ ((c : Cell) → has self.now c ≡ false) }
        ensures least { IfSome result (λ r. IsLeastBox r (has self.now)) }
    {
        let bx = self.bx;
        if scan::count_part(&self.words, &bx, &bx) == 0 {
            return None;
        }
        Some(edges::least(&self.words, &bx, &bx))
    }

    /// The least box round the tagged cells that lie in a box, None exactly where none does.
    pub fn bounding_in(&self, b: Bx) -> Option<Bx>
        ensures none { IsNone result ↔ ((c : Cell) → (holds b c && has self.now c) ≡ false) }
        ensures least { IfSome result (λ r. IsLeastBox r (λ c. holds b c && has self.now c)) }
    {
        let bx = self.bx;
        match bx.meet(&b) {
            None => None,
            Some(part) => {
                if scan::count_part(&self.words, &bx, &part) == 0 {
                    return None;
                }
                Some(edges::least(&self.words, &bx, &part))
            }
        }
    }

    /// How many tagged cells lie in a box, by counts of bits.
    pub fn count_in(&self, b: Bx) -> u64
        ensures { result ≡ count_by (λ c. holds b c && has self.now c) (cells_of self.now.bx) }
    {
        let bx = self.bx;
        match bx.meet(&b) {
            None => 0,
            Some(part) => scan::count_part(&self.words, &bx, &part),
        }
    }
}
