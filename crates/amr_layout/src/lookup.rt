//! Look-ups that begin where the last one ended, so that a span of faces beside one patch takes one search.

ghost use Rattle.std.specs.Prelude.{◌≡◌, ℕ, ◌<◌, ◌≤◌, pos, negsuc, ◌<ℤ◌, is_some, IfSome};
ghost use Rattle.std.specs.Option.{option_copied};
ghost use Rattle.amr_box.specs.Cells.{cell};
ghost use Rattle.amr_def.specs.State.{is_covered};
ghost use Rattle.amr_patch.specs.Levels.{level_of};
ghost use Rattle.amr_patch.specs.Patches.{in_patches};
ghost use Rattle.amr_patch.specs.Orders.{IsHolder};
ghost use Rattle.amr_patch.specs.Gaps.{IsGap};
ghost use Rattle.amr_layout.specs.Arounds.{CanLookUp};
ghost use Rattle.amr_layout.specs.Surroundings.{IsReachable, finer_masses};

use amr_box::{Bx, Cell};
use amr_patch::{Level, Order, Patch, Starts, find_near, gap_from, is_in_gap};

/// What the last look-ups among the patches of a level found: the number of a patch, and a box of cells that none of them has.
#[derive(Clone, Copy)]
pub(crate) struct Trace {
    pub(crate) patch: usize,
    pub(crate) gap: Option<Bx>,
}

/// The same as `find_near`, where many of the cells are of no patch: it looks at the last gap too, and leaves the next one there.
pub(crate) fn look_beside(
    patches: &[Patch],
    order: Order,
    starts: &Starts,
    trace: &mut Trace,
    c: Cell,
) -> Option<usize>
    requires look_up { CanLookUp order patches.now starts.now }
    requires gap { IsGap patches.now trace.old.gap }
    ensures some { is_some result ≡ in_patches patches.now c }
    ensures found { IfSome result (IsHolder patches.now c) }
    ensures gap { IsGap patches.now trace.new.gap }
{
    if is_in_gap(trace.gap, c) {
        return None;
    }
    let found = find_near(patches, order, &mut trace.patch, c);
    if found.is_none() {
        trace.gap = gap_from(starts, c);
    }
    found
}

/// Whether a level has the cell.
fn has(level: &Level, near: &mut usize, x: i32, y: i32) -> bool
    ensures { result ≡ is_some ((level_of level.now).masses (cell x y)) }
{
    find_near(level.patches(), level.order(), near, Cell { x, y }).is_some()
}

/// Whether a cell is the parent of one of the level.
fn has_child(level: &Level, near: &mut usize, c: Cell) -> bool
    requires { IsReachable c }
    ensures { result ≡ is_covered (level_of level.now).masses c }
{
    let x = c.x + c.x;
    let y = c.y + c.y;
    let low = has(level, near, x, y) | has(level, near, x + 1, y);
    let high = has(level, near, x, y + 1) | has(level, near, x + 1, y + 1);
    low | high
}

/// Whether a cell is covered by the finer level, if there is one.
pub(crate) fn is_covered(finer: Option<&Level>, near: &mut usize, c: Cell) -> bool
    requires { IsReachable c }
    ensures { result ≡ is_covered (finer_masses (option_copied finer.entry)) c }
{
    match finer {
        None => false,
        Some(level) => has_child(level, near, c),
    }
}
