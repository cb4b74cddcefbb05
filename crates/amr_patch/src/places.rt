//! Where the entries of a patch stand in its lists.

ghost use Rattle.std.specs.Prelude.{◌≡◌, ◌+◌, ◌*◌, ◌<◌, ◌≤◌, pos, ◌+ℤ◌, ◌-ℤ◌, ◌≤ℤ◌, ◌<ℤ◌, IsTrue};
ghost use Rattle.amr_box.specs.declared.Axis.TheVariants.{X, Y};
ghost use Rattle.amr_box.specs.Cells.{IsNear, height, holds, near_limit, width};
ghost use Rattle.amr_patch.specs.Places.{column_of, grown, in_frame, is_end, on_edge, place, row_of};

use amr_box::{Axis, Bx, Cell, distance, is_within};

/// Whether a cell is of the frame: of the grown box and not of the box.
#[tactic(auto, using(crate::proofs::Conditions::conditions))]
pub(crate) fn in_frame(b: &Bx, c: Cell) -> bool
    requires { IsNear b.now }
    ensures { result ≡ in_frame b.now c }
{
    b.grow(1).holds(c) && !b.holds(c)
}

/// Where the value of a cell of the grown box stands.
pub(crate) fn place(b: &Bx, c: Cell) -> usize
    requires near { IsNear b.now }
    requires inside { IsTrue (holds (grown b.now) c) }
    ensures value { result ≡ place b.now c }
    ensures within { result < (height b.now + 2) * (width b.now + 2) }
{
    let lo = b.lo();
    let row = distance(lo.y - 1, c.y);
    let column = distance(lo.x - 1, c.x);
    row * (b.width() as usize + 2) + column
}

/// Where the values of `n` cells of a row of the grown box stand, from a cell on.
pub(crate) fn row_place(b: &Bx, c: Cell, n: u32) -> usize
    requires near { IsNear b.now }
    requires inside { IsTrue (holds (grown b.now) c) }
    requires room { (c.x +ℤ pos n) ≤ℤ (b.now.hi.x +ℤ pos 2) }
    ensures value { result ≡ place b.now c }
    ensures within { result + n ≤ (height b.now + 2) * (width b.now + 2) }
{
    let lo = b.lo();
    let row = distance(lo.y - 1, c.y);
    let column = distance(lo.x - 1, c.x);
    let _count = n;
    row * (b.width() as usize + 2) + column
}

/// How many columns the box has from a cell of it on.
pub(crate) fn columns_from(b: &Bx, c: Cell) -> u32
    requires near { IsNear b.now }
    requires inside { IsTrue (holds b.now c) }
    ensures { pos result ≡ b.now.hi.x +ℤ pos 1 -ℤ c.x }
{
    let more = distance(c.x, b.hi().x);
    more as u32 + 1
}

/// Whether faces at `z` lie at the low side of the cells from `low` to `high`, or at their high side.
fn is_end(low: i32, high: i32, z: i32) -> bool
    requires { high <ℤ pos (near_limit + 1) }
    ensures { result ≡ is_end low high z }
{
    z == low || z == high + 1
}

/// Whether the face at the low side of a cell along the axis lies on an edge of the box.
pub(crate) fn on_edge(axis: Axis, b: &Bx, c: Cell) -> bool
    requires { IsNear b.now }
    ensures { result ≡ on_edge axis b.now c }
{
    let lo = b.lo();
    let hi = b.hi();
    match axis {
        Axis::X => is_within(lo.y, hi.y, c.y) && is_end(lo.x, hi.x, c.x),
        Axis::Y => is_within(lo.x, hi.x, c.x) && is_end(lo.y, hi.y, c.y),
    }
}

/// The row of a face on the low or the high x edge, counted from the low row of the box.
pub(crate) fn edge_row(b: &Bx, c: Cell) -> usize
    requires near { IsNear b.now }
    requires edge { IsTrue (on_edge X b.now c) }
    ensures value { result ≡ row_of b.now c }
    ensures within { result < height b.now }
{
    distance(b.lo().y, c.y)
}

/// The column of a face on the low or the high y edge, counted from the low column of the box.
pub(crate) fn edge_column(b: &Bx, c: Cell) -> usize
    requires near { IsNear b.now }
    requires edge { IsTrue (on_edge Y b.now c) }
    ensures value { result ≡ column_of b.now c }
    ensures within { result < width b.now }
{
    distance(b.lo().x, c.x)
}
