//! Ghost cells in a gap between patches: a quarter of the mass of each one's parent.

ghost use Rattle.std.specs.Prelude.{◌≡◌, ℕ, ◌/◌, ◌<◌, ◌≤◌, false, IfSome, List};
ghost use Rattle.std.specs.Option.{option_copied};
ghost use Rattle.amr_box.specs.declared.Cell.{Cell};
ghost use Rattle.amr_box.specs.Cells.{parent};
ghost use Rattle.amr_patch.specs.declared.patches.Patch.{Patch};
ghost use Rattle.amr_patch.specs.Patches.{in_patches};
ghost use Rattle.amr_patch.specs.Gaps.{HasStarts};
ghost use Rattle.amr_ghost.specs.Strips.{step};
ghost use Rattle.amr_ghost.specs.GhostCells.{AreOrdered};

use crate::places::cells_up_to;
use amr_box::{Axis, Cell, parent};
use amr_patch::{Patch, Starts, gap_from};

/// How many cells, from one that no patch has on along an axis, no patch has, counted up to `most`. It is 1 where it isn't known
/// where the patches start.
pub(crate) fn gap_ahead(starts: Option<&Starts>, axis: Axis, c: Cell, most: u32) -> u32
    requires starts { IfSome (option_copied starts) AreOrdered }
    requires some { 0 < most }
    ensures some { 0 < result }
    ensures within { result ≤ most }
    ensures gap { (ps : List Patch) → IfSome (option_copied starts.entry) (HasStarts ps) → in_patches ps c ≡ false → (k : ℕ) → k < result
        → in_patches ps (step axis c k) ≡ false }
{
    let Some(starts) = starts else {
        return 1;
    };
    match gap_from(starts, c) {
        None => 1,
        Some(gap) => cells_up_to(&gap, axis, c, most),
    }
}
