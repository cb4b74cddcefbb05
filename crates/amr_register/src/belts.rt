//! Belts: rows of a level side by side, all cells of each. By belts the search for register cells is shared out.

ghost use Rattle.std.specs.Prelude.{◌≡◌, ◌+◌, ◌<◌, ◌≤◌, ◌*◌, false, pos, ◌+ℤ◌, ◌-ℤ◌, ◌≤ℤ◌};
ghost use Rattle.amr_box.specs.declared.Cell.{Cell};
ghost use Rattle.amr_box.specs.Cells.{Extent, IsNear};
ghost use Rattle.amr_def.specs.Domain.{domain_of, home_cell};
ghost use Rattle.amr_register.specs.Belts.{is_in_belt};

use amr_box::{Bx, Cell};
use amr_def::Dom;

/// The rows from `first` to `last`. There is none where `last` is the row before `first`.
#[derive(Clone, Copy)]
pub(crate) struct Belt {
    pub(crate) first: i32,
    pub(crate) last: i32,
}

/// Belt `k` of those of `size` rows, from row 0 on.
#[tactic(auto, using(crate::proofs::BeltCells::first_fits, crate::proofs::BeltCells::last_is))]
pub(crate) fn belt_at(k: u32, size: u32) -> Belt
    requires few { k < 4096 }
    requires small { size ≤ 4097 }
    ensures first { result.first ≡ pos (k * size) }
    ensures last { result.last ≡ pos ((k + 1) * size) -ℤ pos 1 }
{
    let first = (k * size) as i32;
    Belt {
        first,
        last: first + size as i32 - 1,
    }
}

/// Whether a cell lies in a belt.
pub(crate) fn is_in_belt(belt: Belt, c: Cell) -> bool
    ensures { result ≡ is_in_belt belt c }
{
    belt.first <= c.y && c.y <= belt.last
}

/// Whether a cell beside a box may stand for one in a belt. It may where the box reaches an end of the domain, past which the
/// rows begin anew on a periodic axis.
pub(crate) fn may_reach(dom: &Dom, belt: Belt, b: &Bx) -> bool
    requires near { IsNear b.now }
    ensures { result ≡ false → (c : Cell) → (b.now.lo.y -ℤ pos 1) ≤ℤ c.y → c.y ≤ℤ (b.now.hi.y +ℤ pos 1)
        → is_in_belt belt (home_cell (domain_of dom.now) c) ≡ false }
{
    let below = b.lo().y - 1;
    let above = b.hi().y + 1;
    if below < 0 {
        return true;
    }
    if dom.rows() as i32 <= above {
        return true;
    }
    if above < belt.first {
        return false;
    }
    below <= belt.last
}
