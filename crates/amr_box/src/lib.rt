//! Cells, faces and boxes of cells, after BoxLib's box calculus. A box is its low and its high corner, both inside.
//! Each call on boxes is told twice, by its corners and by its set of cells.
#![tactic(auto)]

ghost use Rattle.std.specs.Prelude.{◌≡◌, ◌&&◌, ◌⊎◌, ℕ, ◌*◌, ◌<◌, ◌≤◌, ◌^◌, ◌↔◌, pos, negsuc, ◌+ℤ◌, ◌-ℤ◌, ◌≤ℤ◌};
ghost use Rattle.std.specs.Prelude.{◌<ℤ◌, int_le, int_lt, length, IsTrue, IfSome, IsSome, IsNone};
ghost use Rattle.amr_box.specs.Cells.{AreDisjoint, HasCorners, HoldsNear, IsBoxOf, IsNear, IsProper, along, below_cut, cell, cells_of};
ghost use Rattle.amr_box.specs.Cells.{common, extent, from_cut, half, has_child_where, height, holds, parent, width, within};
ghost use Rattle.amr_box.specs.declared.Cell.{Cell};

use std::marker::Model;

/// A cell of a level, by its column `x` and its row `y`. Any number is a column or a row; a level's domain begins at 0.
#[derive(Clone, Copy, Debug, PartialEq, Eq, PartialOrd, Ord, Hash)]
pub struct Cell {
    pub x: i32,
    pub y: i32,
}

/// An axis: `X` runs along columns, `Y` along rows.
#[derive(Clone, Copy, Debug, PartialEq, Eq, PartialOrd, Ord, Hash)]
pub enum Axis {
    X,
    Y,
}

/// A face: the x face `(x, y)` lies between the cells `(x - 1, y)` and `(x, y)`, the y face between `(x, y - 1)` and `(x, y)`.
#[derive(Clone, Copy, Debug, PartialEq, Eq, PartialOrd, Ord, Hash)]
pub struct Face {
    pub axis: Axis,
    pub x: i32,
    pub y: i32,
}

/// A box of cells, from its low to its high corner, both inside, so that it has at least one cell (BoxLib's cell-centred
/// `Box`). Contracts see it as an `Extent`, its two corners.
#[derive(Clone, Copy, Debug, PartialEq, Eq)]
pub struct Bx {
    lo: Cell,
    hi: Cell,
}

impl Model for Bx {
    ghost use Rattle.std.specs.Prelude.{◌≤ℤ◌};
    ghost use Rattle.amr_box.specs.Cells.{Extent};

    ghost Value = { Extent };

    ghost view = { λ b. record { lo = b.lo; hi = b.hi } };

    ghost invariant = { λ b. (b.lo.x ≤ℤ b.hi.x) × (b.lo.y ≤ℤ b.hi.y) };

    ghost inverse = { λ e. record { lo = e.lo; hi = e.hi } };
}

impl Bx {
    /// The box from `lo` to `hi`, None exactly where `hi` is less than `lo` in an axis.
    pub fn try_new(lo: Cell, hi: Cell) -> Option<Bx>
        ensures some { IfSome result (λ b. b ≡ extent lo hi) }
        ensures proper { IsSome result ↔ ((lo.x ≤ℤ hi.x) × (lo.y ≤ℤ hi.y)) }
        ensures none { IsNone result ↔ ((hi.x <ℤ lo.x) ⊎ (hi.y <ℤ lo.y)) }
    {
        if lo.x <= hi.x && lo.y <= hi.y {
            Some(Bx { lo, hi })
        } else {
            None
        }
    }

    /// The low corner, a cell of the box.
    pub fn lo(&self) -> Cell
        ensures value { result ≡ self.now.lo }
        ensures x { result.x ≡ self.now.lo.x }
        ensures y { result.y ≡ self.now.lo.y }
        ensures proper { IsProper self.now }
    {
        self.lo
    }

    /// The high corner, a cell of the box.
    pub fn hi(&self) -> Cell
        ensures value { result ≡ self.now.hi }
        ensures x { result.x ≡ self.now.hi.x }
        ensures y { result.y ≡ self.now.hi.y }
        ensures proper { IsProper self.now }
    {
        self.hi
    }

    /// Whether the cell is in the box.
    #[tactic(auto, using(crate::proofs::Boxes::calls))]
    pub fn holds(&self, c: Cell) -> bool
        ensures { result ≡ holds self.now c }
    {
        let lo = self.lo();
        let hi = self.hi();
        is_within(lo.x, hi.x, c.x) && is_within(lo.y, hi.y, c.y)
    }

    /// The corners of what is in both boxes, out of order where nothing is.
    fn common(&self, o: &Bx) -> (Cell, Cell)
        ensures { extent result.0 result.1 ≡ common self.now o.now }
    {
        let (a, b) = (self.lo(), self.hi());
        let (c, d) = (o.lo(), o.hi());
        let lo = Cell {
            x: a.x.max(c.x),
            y: a.y.max(c.y),
        };
        let hi = Cell {
            x: b.x.min(d.x),
            y: b.y.min(d.y),
        };
        (lo, hi)
    }

    /// The cells that are in both boxes (BoxLib's `&`), None exactly where no cell is.
    pub fn meet(&self, o: &Bx) -> Option<Bx>
        ensures corners { IfSome result (λ b. b ≡ common self.now o.now) }
        ensures cells { IfSome result (λ b. IsBoxOf b (λ c. holds self.now c && holds o.now c)) }
        ensures some { IsSome result ↔ IsProper (common self.now o.now) }
        ensures none { IsNone result ↔ AreDisjoint self.now o.now }
    {
        let (lo, hi) = self.common(o);
        Bx::try_new(lo, hi)
    }

    /// The parents of the cells: both corners halved towards minus infinity (BoxLib's `coarsen` by 2).
    pub fn coarsen2(&self) -> Bx
        ensures corners { HasCorners result (half self.now.lo.x) (half self.now.lo.y) (half self.now.hi.x) (half self.now.hi.y) }
        ensures cells { IsBoxOf result (has_child_where (holds self.now)) }
    {
        let lo = parent(self.lo());
        let hi = parent(self.hi());
        Bx { lo, hi }
    }

    /// The children of the cells (BoxLib's `refine` by 2). Coordinates lie between -2^24 and 2^24.
    pub fn refine2(&self) -> Bx
        requires { IsNear self.now }
        ensures corners { HasCorners result (self.now.lo.x +ℤ self.now.lo.x) (self.now.lo.y +ℤ self.now.lo.y) (self.now.hi.x +ℤ self.now.hi.x +ℤ pos 1)
            (self.now.hi.y +ℤ self.now.hi.y +ℤ pos 1) }
        ensures cells { IsBoxOf result (λ c. holds self.now (parent c)) }
    {
        let lo = self.lo();
        let hi = self.hi();
        Bx {
            lo: Cell {
                x: lo.x + lo.x,
                y: lo.y + lo.y,
            },
            hi: Cell {
                x: hi.x + hi.x + 1,
                y: hi.y + hi.y + 1,
            },
        }
    }

    /// The cells at most `n` away from the box in each axis (BoxLib's `grow`), for `n` from 0 to 64. Coordinates lie
    /// between -2^24 and 2^24.
    pub fn grow(&self, n: u32) -> Bx
        requires near { IsNear self.now }
        requires small { n ≤ 64 }
        ensures corners { HasCorners result (self.now.lo.x -ℤ pos n) (self.now.lo.y -ℤ pos n) (self.now.hi.x +ℤ pos n) (self.now.hi.y +ℤ pos n) }
        ensures cells { (c : Cell) → IsTrue (holds result c) ↔ HoldsNear n self.now c }
    {
        let by = n as i32;
        let lo = self.lo();
        let hi = self.hi();
        Bx {
            lo: Cell {
                x: lo.x - by,
                y: lo.y - by,
            },
            hi: Cell {
                x: hi.x + by,
                y: hi.y + by,
            },
        }
    }

    /// How many columns the box has. Coordinates lie between -2^24 and 2^24.
    pub fn width(&self) -> u32
        requires { IsNear self.now }
        ensures value { result ≡ width self.now }
        ensures corners { pos result ≡ self.now.hi.x +ℤ pos 1 -ℤ self.now.lo.x }
    {
        let low = self.lo().x;
        let high = self.hi().x;
        (high - low) as u32 + 1
    }

    /// How many rows the box has. Coordinates lie between -2^24 and 2^24.
    pub fn height(&self) -> u32
        requires { IsNear self.now }
        ensures value { result ≡ height self.now }
        ensures corners { pos result ≡ self.now.hi.y +ℤ pos 1 -ℤ self.now.lo.y }
    {
        let low = self.lo().y;
        let high = self.hi().y;
        (high - low) as u32 + 1
    }

    /// How many cells the box has. Coordinates lie between -2^24 and 2^24.
    pub fn area(&self) -> u64
        requires { IsNear self.now }
        ensures sides { result ≡ width self.now * height self.now }
        ensures cells { result ≡ length (cells_of self.now) }
    {
        u64::from(self.width()) * u64::from(self.height())
    }

    /// The cells below `i` on the axis, and the rest (BoxLib's `chop`). Each part has a cell: `lo < i <= hi` on the axis.
    pub fn cut_at(&self, axis: Axis, i: i32) -> (Bx, Bx)
        requires above_low { along axis self.now.lo <ℤ i }
        requires up_to_high { i ≤ℤ along axis self.now.hi }
        ensures low { result.0 ≡ below_cut axis i self.now }
        ensures high { result.1 ≡ from_cut axis i self.now }
        ensures low_cells { IsBoxOf result.0 (λ c. holds self.now c && int_lt (along axis c) i) }
        ensures high_cells { IsBoxOf result.1 (λ c. holds self.now c && int_le i (along axis c)) }
    {
        let lo = self.lo();
        let hi = self.hi();
        match axis {
            Axis::X => {
                let below = Cell { x: i - 1, y: hi.y };
                let from = Cell { x: i, y: lo.y };
                (Bx { lo, hi: below }, Bx { lo: from, hi })
            }
            Axis::Y => {
                let below = Cell { x: hi.x, y: i - 1 };
                let from = Cell { x: lo.x, y: i };
                (Bx { lo, hi: below }, Bx { lo: from, hi })
            }
        }
    }
}

/// Whether a coordinate is from `low` to `high`, both inside.
pub fn is_within(low: i32, high: i32, z: i32) -> bool
    ensures { result ≡ within low high z }
{
    low <= z && z <= high
}

/// How far a coordinate lies above another that is not greater.
pub fn distance(low: i32, z: i32) -> usize
    requires order { low ≤ℤ z }
    ensures value { pos result ≡ z -ℤ low }
    ensures small { result < 2 ^ 32 }
{
    (z as i64 - low as i64) as usize
}

/// The cell of the next coarser level that a cell lies in: both coordinates halved towards minus infinity.
pub fn parent(c: Cell) -> Cell
    ensures value { result ≡ parent c }
    ensures x { result.x ≡ half c.x }
    ensures y { result.y ≡ half c.y }
{
    Cell {
        x: c.x.div_euclid(2),
        y: c.y.div_euclid(2),
    }
}
