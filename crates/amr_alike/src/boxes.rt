//! Boxes compared.

ghost use Rattle.std.specs.Prelude.{◌≡◌, IsTrue};

use amr_box::Bx;

/// Whether two boxes are one.
pub(crate) fn is_same(a: &Bx, b: &Bx) -> bool
    ensures { IsTrue result → a.now ≡ b.now }
{
    let (low, high) = (a.lo(), a.hi());
    let (other_low, other_high) = (b.lo(), b.hi());
    if low.x != other_low.x {
        return false;
    }
    if low.y != other_low.y {
        return false;
    }
    if high.x != other_high.x {
        return false;
    }
    if high.y != other_high.y {
        return false;
    }
    true
}

/// Whether two lists have the same boxes in the same order. It says yes of no others.
pub fn are_same(a: &[Bx], b: &[Bx]) -> bool
    ensures { IsTrue result → a.now ≡ b.now }
{
    if a.len() != b.len() {
        return false;
    }
    for k in 0..a.len() {
        if !is_same(&a[k], &b[k]) {
            return false;
        }
    }
    true
}
