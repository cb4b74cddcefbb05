//! Which cells of a level a finer one covers.

ghost use Rattle.amr_register.specs.Bars.{AreBars};

use crate::bars::{Stretch, count_of, push_rows, stretch_at, told};
use amr_box::{Bx, Cell};
use amr_causes::NoMemory;
use amr_patch::Level;
use std::alloc::Global;

/// The cells of a level that a finer one covers, as stretches along rows. So a stretch of a row that is covered, or of
/// which no cell is, takes one look-up. A search is made only where it is neither the last one's nor beside it. There
/// are as many bars as the parents of the finer level's boxes have rows.
#[derive(Drop)]
pub(crate) struct Cover {
    bars: Vec<Bx>,
    ghost bars_in_order: { AreBars bars.items },
}

#[tactic(auto, unfolding(crate::specs::Covers::covers))]
impl Cover {
    ghost use Rattle.std.specs.Prelude.{◌≡◌, is_some, IfOk};
    ghost use Rattle.std.specs.List.{All};
    ghost use Rattle.amr_box.specs.declared.Cell.{Cell};
    ghost use Rattle.amr_box.specs.Cells.{IsNear, in_boxes};
    ghost use Rattle.amr_def.specs.Facts.{IsAligned};
    ghost use Rattle.amr_def.specs.State.{is_covered};
    ghost use Rattle.amr_patch.specs.Levels.{level_of};
    ghost use Rattle.amr_patch.specs.Patches.{ArePairwiseApart};
    ghost use Rattle.amr_register.specs.Bars.{IsStretch};
    ghost use Rattle.amr_register.specs.Covers.{covers};

    /// The cells that a level covers, whose boxes have all children of a cell or none.
    pub(crate) fn make(alloc: Global, fine: &Level) -> Result<Cover, NoMemory>
        requires near { All IsNear (level_of fine.now).boxes }
        requires apart { ArePairwiseApart (level_of fine.now).boxes }
        requires aligned { All (IsAligned 2) (level_of fine.now).boxes }
        requires filled { (c : Cell) → is_some ((level_of fine.now).masses c) ≡ in_boxes (level_of fine.now).boxes c }
        ensures { IfOk result (λ v. (c : Cell) → covers v c ≡ is_covered (level_of fine.now).masses c) }
    {
        let mut bars = Vec::new(alloc);
        for b in fine.boxes() {
            push_rows(&mut bars, &b.coarsen2())?;
        }
        bars.sort_unstable_by_key(|r| {
            let low = r.lo();
            (low.y, low.x)
        });
        Ok(Cover { bars })
    }

    /// How many bars there are.
    pub(crate) fn bar_count(&self) -> usize {
        self.bars.len()
    }

    /// Whether a cell is covered. It looks at the last stretch first, and leaves there the one that has the cell.
    pub(crate) fn covers(&self, last: &mut Option<Stretch>, c: Cell) -> bool
        requires { IsStretch (covers self.now) last.old }
        ensures value { result ≡ covers self.now c }
        ensures last { IsStretch (covers self.now) last.new }
    {
        if let Some(covered) = told(*last, c) {
            return covered;
        }
        let found = stretch_at(&self.bars, count_of(*last), c);
        let covered = found.covered;
        *last = Some(found);
        covered
    }
}
