//! Boxes side by side, with which several crates are tested.

ghost use Rattle.std.specs.Prelude.{◌≡◌, ◌≤◌, ◌<◌, ◌+◌, ◌≤ℤ◌, [], ◌∷◌, pos};
ghost use Rattle.amr_box.specs.Cells.{IsNear, cell, extent};
ghost use Rattle.amr_patch.specs.Patches.{ArePairwiseApart, AreNear};

use amr_box::{Bx, Cell};

/// The box from column `west` to `east` and from row 0 to `north`.
fn columns(west: i32, east: i32, north: u8) -> Bx
    requires first { pos 0 ≤ℤ west }
    requires order { west ≤ℤ east }
    requires last { east ≤ℤ pos 255 }
    ensures value { result ≡ extent (cell west (pos 0)) (cell east (pos north)) }
    ensures near { IsNear result }
{
    let lo = Cell { x: west, y: 0 };
    let hi = Cell {
        x: east,
        y: i32::from(north),
    };
    Bx::try_new(lo, hi).unwrap()
}

/// Two boxes side by side in rows 0 to `north`: columns `west` to `middle`, and those from there to `east`.
pub(crate) fn side_by_side(west: u8, middle: u8, east: u8, north: u8) -> [Bx; 2]
    requires left { west ≤ middle }
    requires right { middle < east }
    ensures are { result ≡ extent (cell (pos west) (pos 0)) (cell (pos middle) (pos north))
        ∷ extent (cell (pos (middle + 1)) (pos 0)) (cell (pos east) (pos north)) ∷ [] }
    ensures apart { ArePairwiseApart result }
    ensures near { AreNear result }
{
    let (first, last) = (i32::from(west), i32::from(east));
    let between = i32::from(middle);
    let left = columns(first, between, north);
    let right = columns(between + 1, last, north);
    [left, right]
}
