//! Which patches of a list may reach a box.

ghost use Rattle.std.specs.Prelude.{◌≡◌, IsTrue};
ghost use Rattle.amr_box.specs.declared.Cell.{Cell};
ghost use Rattle.amr_box.specs.Cells.{holds};
ghost use Rattle.amr_patch.specs.Orders.{IsOrderOf};
ghost use Rattle.amr_patch.specs.Patches.{ArePatchesApart, masses_in};

use amr_box::Bx;
use amr_patch::{Order, Patch, reach_of};

/// A part of the list, outside which no patch has a cell of the box.
pub fn reaching<'a>(patches: &'a [Patch], order: Order, b: &Bx) -> &'a [Patch]
    requires order { IsOrderOf order patches.now }
    requires apart { ArePatchesApart patches.now }
    ensures masses { (c : Cell) → IsTrue (holds b.now c) → masses_in result.now c ≡ masses_in patches.now c }
    ensures apart { ArePatchesApart result.now }
{
    let (from, to) = reach_of(patches, order, b.lo().y, b.hi().y);
    &patches[from..to]
}
