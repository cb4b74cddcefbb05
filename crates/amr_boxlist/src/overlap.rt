//! How many cells of a box are in boxes that have no cell in common.

ghost use Rattle.std.specs.Prelude.{◌≡◌, IsTrue, ◌↔◌};
ghost use Rattle.std.specs.List.{sum_by};
ghost use Rattle.amr_box.specs.Cells.{IsNear, holds, in_boxes};
ghost use Rattle.amr_box.specs.declared.Cell.{Cell};
ghost use Rattle.amr_boxlist.specs.Lists.{AreApart};
ghost use Rattle.amr_boxlist.specs.Shared.{shared};

use amr_box::Bx;

/// Whether each cell of a box is in boxes of which no two have a cell in common: by counts, one look at each of them and
/// no memory. Coordinates of the box lie between -2^24 and 2^24.
pub fn covers(boxes: &[Bx], b: &Bx) -> bool
    requires apart { AreApart boxes.now }
    requires near { IsNear b.now }
    ensures { IsTrue result ↔ ((c : Cell) → IsTrue (holds b.now c) → IsTrue (in_boxes boxes.now c)) }
{
    count_shared(boxes, b) == b.area()
}

/// How many cells of the box are in the boxes.
fn count_shared(boxes: &[Bx], b: &Bx) -> u64
    requires apart { AreApart boxes.now }
    requires near { IsNear b.now }
    ensures { result ≡ sum_by (shared b.now) boxes.now }
{
    let mut count = 0;
    for a in boxes {
        count += shared(a, b);
    }
    count
}

/// How many cells are in both boxes.
fn shared(a: &Bx, b: &Bx) -> u64
    requires { IsNear b.now }
    ensures { result ≡ shared b.now a.now }
{
    match a.meet(b) {
        None => 0,
        Some(m) => m.area(),
    }
}
