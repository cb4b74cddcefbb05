//! Faces that lie side by side along one patch: a stretch of them takes one look-up.

ghost use Rattle.std.specs.Prelude.{◌≡◌, ℕ, ◌+◌, ◌≤◌, ◌<◌, pos, ◌+ℤ◌, ◌≤ℤ◌};
ghost use Rattle.amr_box.specs.Cells.{IsNear};
ghost use Rattle.amr_def.specs.Domain.{domain};
ghost use Rattle.amr_faces.specs.Faces.{IsInDomain};
ghost use Rattle.amr_layout.specs.Arounds.{around_of, AreAll};
ghost use Rattle.amr_layout.specs.Surroundings.{LiesBesideLevel, edge_count, edge_face};

use crate::adds::Surroundings;
use crate::faces::{edge_face, outside};
use amr_box::{Axis, Bx, distance};

/// How many steps up can be made both from `z`, to `end` at most, and from `other`, to `other_end`.
fn steps_to(z: i32, end: i32, other: i32, other_end: i32) -> u32
    requires below { z ≤ℤ end }
    requires other_below { other ≤ℤ other_end }
    ensures within { (z +ℤ pos result) ≤ℤ end }
    ensures other_within { (other +ℤ pos result) ≤ℤ other_end }
{
    distance(z, end).min(distance(other, other_end)) as u32
}

/// How many of the faces that come after face `n` on the same side of a box lie, one after another, beside cells of
/// patch `at`, as face `n` does. It may be 0; then face `n` need not lie beside that patch.
pub(crate) fn more_beside(s: Surroundings<'_>, at: usize, b: &Bx, n: u32) -> u32
    requires level { s.level ≤ 4 }
    requires all { AreAll s }
    requires near { IsNear b.now }
    requires inside { IsInDomain (domain s.problem.now s.level) b.now }
    requires there { n < edge_count b.now }
    ensures count { n + result < edge_count b.now }
    ensures beside { (m : ℕ) → n < m → m ≤ n + result → LiesBesideLevel (around_of s.entry) b.now (edge_face b.now m) }
{
    if at >= s.patches.len() {
        return 0;
    }
    let dom = s.problem.domain(s.level);
    let f = edge_face(b, n);
    let home = dom.home_cell(outside(b, f));
    if !dom.in_domain(home) {
        return 0;
    }
    let q = s.patches[at].bx();
    if !q.holds(home) {
        return 0;
    }
    match f.axis {
        Axis::X => steps_to(f.y, b.hi().y, home.y, q.hi().y),
        Axis::Y => steps_to(f.x, b.hi().x, home.x, q.hi().x),
    }
}
