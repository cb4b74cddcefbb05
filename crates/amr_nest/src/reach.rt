//! The cells of a domain at most one away from a box of it, by boxes. Past the end of a periodic axis the box is moved
//! by a whole domain.

ghost use Rattle.std.specs.Prelude.{◌≡◌, ◌<◌, ◌≤◌, ◌%◌, ◌/◌, ◌&&◌, false, pos, negsuc, ◌≤ℤ◌, IfNone, IfSome, IsTrue};
ghost use Rattle.amr_box.specs.declared.Cell.{Cell};
ghost use Rattle.amr_box.specs.Cells.{IsNear, IsProper, holds, parent, parents_of};
ghost use Rattle.amr_def.specs.Domain.{domain_box, domain_of, in_domain};
ghost use Rattle.amr_nest.specs.Reach.{IsInDomainBox, is_reached_at, is_turn, moved_reach, shift};

use amr_box::{Bx, Cell, parent};
use amr_def::Dom;

/// By how much a turn moves along an axis of `n` cells.
#[tactic(auto, using(crate::proofs::Turns::turns))]
fn shift(n: u32, turn: u32) -> i32
    requires few { n ≤ 4096 }
    requires turn { turn < 3 }
    ensures value { result ≡ shift n turn }
    ensures low { negsuc 4095 ≤ℤ result }
    ensures high { result ≤ℤ pos 4096 }
{
    (n * turn) as i32 - n as i32
}

/// Whether an axis has a turn.
fn is_turn(wrap: bool, turn: u32) -> bool
    ensures { result ≡ is_turn wrap turn }
{
    wrap || turn == 1
}

/// Whether both axes have their turns.
fn has_turns(dom: &Dom, k: u32) -> bool
    ensures { result ≡ (is_turn dom.now.wrap_x (k % 3) && is_turn dom.now.wrap_y (k / 3)) }
{
    is_turn(dom.wrap_x, k % 3) && is_turn(dom.wrap_y, k / 3)
}

/// The parents of the cells of a box, where they lie in the domain.
pub fn parents(b: &Bx, dom: &Dom) -> Bx
    requires { (c : Cell) → IsTrue (holds b.now c) → IsTrue (in_domain (domain_of dom.now) (parent c)) }
    ensures value { result ≡ parents_of b.now }
    ensures inside { IsInDomainBox (domain_of dom.now) (parents_of b.now) }
    ensures proper { IsProper b.now }
{
    let _domain = dom.wrap_x;
    let (lo, hi) = (parent(b.lo()), parent(b.hi()));
    Bx::try_new(lo, hi).unwrap()
}

/// The domain as a box: its corners lie from 0 to 4095.
#[tactic(auto, using(crate::proofs::Sizes::two_doubled))]
pub fn domain_box(dom: &Dom) -> Bx
    ensures value { result ≡ domain_box (domain_of dom.now) }
    ensures near { IsNear result }
{
    let hi = Cell {
        x: dom.columns() as i32 - 1,
        y: dom.rows() as i32 - 1,
    };
    Bx::try_new(Cell { x: 0, y: 0 }, hi).unwrap()
}

/// The box, grown by one cell and moved by turn `i` of x and turn `j` of y.
fn moved_reach(b: &Bx, dom: &Dom, i: u32, j: u32) -> Bx
    requires inside { IsInDomainBox (domain_of dom.now) b.now }
    requires x_turn { i < 3 }
    requires y_turn { j < 3 }
    ensures { result ≡ moved_reach (domain_of dom.now) i j b.now }
{
    let x = shift(dom.columns(), i);
    let y = shift(dom.rows(), j);
    let (low, high) = (b.lo(), b.hi());
    let lo = Cell {
        x: low.x - 1 + x,
        y: low.y - 1 + y,
    };
    let hi = Cell {
        x: high.x + 1 + x,
        y: high.y + 1 + y,
    };
    Bx::try_new(lo, hi).unwrap()
}

/// The cells of the domain at most one away from a box of it at turn `k`, None where there are none.
pub fn reach_at(b: &Bx, dom: &Dom, k: u32) -> Option<Bx>
    requires inside { IsInDomainBox (domain_of dom.now) b.now }
    requires turn { k < 9 }
    ensures some { IfSome result (λ r. (c : Cell) → is_reached_at (domain_of dom.now) b.now k c ≡ holds r c) }
    ensures near { IfSome result IsNear }
    ensures none { IfNone result ((c : Cell) → is_reached_at (domain_of dom.now) b.now k c ≡ false) }
{
    if !has_turns(dom, k) {
        return None;
    }
    let moved = moved_reach(b, dom, k % 3, k / 3);
    domain_box(dom).meet(&moved)
}
