//! What is left of boxes when the cells of another are taken away.

ghost use Rattle.std.specs.Prelude.{◌≡◌, ◌≤◌, ◌++◌, IfOk, OnOk, pos, ◌+ℤ◌, ◌≤ℤ◌, ◌<ℤ◌};
ghost use Rattle.std.specs.List.{flat_map};
ghost use Rattle.amr_box.specs.Cells.{along, below_cut, from_cut};
ghost use Rattle.amr_boxlist.specs.Remnants.{frame, high_part, low_part, whole_or_frame};

use amr_box::{Axis, Bx};
use amr_causes::NoMemory;
use std::alloc::Global;

/// What is left of the boxes, in their order.
pub fn without(alloc: Global, boxes: &[Bx], b: &Bx) -> Result<Vec<Bx>, NoMemory>
    ensures { IfOk result (λ left. left.items ≡ flat_map (whole_or_frame b.now) boxes.now) }
{
    let mut left = Vec::new(alloc);
    for a in boxes {
        push_remnants(&mut left, a, b)?;
    }
    Ok(left)
}

fn push_remnants(left: &mut Vec<Bx>, a: &Bx, b: &Bx) -> Result<(), NoMemory>
    ensures { OnOk result (left.new.items ≡ left.old.items ++ whole_or_frame b.now a.now) }
{
    match a.meet(b) {
        None => {
            left.push(*a)?;
            Ok(())
        }
        Some(m) => push_frame(left, a, &m),
    }
}

/// The cells of `a` beside those of `m`, a box within it.
fn push_frame(left: &mut Vec<Bx>, a: &Bx, m: &Bx) -> Result<(), NoMemory>
    requires west { a.now.lo.x ≤ℤ m.now.lo.x }
    requires south { a.now.lo.y ≤ℤ m.now.lo.y }
    requires east { m.now.hi.x ≤ℤ a.now.hi.x }
    requires north { m.now.hi.y ≤ℤ a.now.hi.y }
    requires wide { m.now.lo.x ≤ℤ m.now.hi.x }
    requires high { m.now.lo.y ≤ℤ m.now.hi.y }
    ensures { OnOk result (left.new.items ≡ left.old.items ++ frame a.now m.now) }
{
    let above_low = push_low(left, Axis::Y, a, m.lo().y)?;
    let band = push_high(left, Axis::Y, &above_low, m.hi().y)?;
    let right = push_low(left, Axis::X, &band, m.lo().x)?;
    let _within = push_high(left, Axis::X, &right, m.hi().x)?;
    Ok(())
}

/// The lowest coordinate of a box on an axis.
fn low_of(a: &Bx, axis: Axis) -> i32
    ensures { result ≡ along axis a.now.lo }
{
    let low = a.lo();
    match axis {
        Axis::X => low.x,
        Axis::Y => low.y,
    }
}

/// The highest.
fn high_of(a: &Bx, axis: Axis) -> i32
    ensures { result ≡ along axis a.now.hi }
{
    let high = a.hi();
    match axis {
        Axis::X => high.x,
        Axis::Y => high.y,
    }
}

/// The coordinate after one that is not the last.
fn next(i: i32, last: i32) -> i32
    requires { i <ℤ last }
    ensures { result ≡ i +ℤ pos 1 }
{
    let _last = last;
    i + 1
}

/// Puts the part below `i` aside, and gives the rest.
fn push_low(left: &mut Vec<Bx>, axis: Axis, a: &Bx, i: i32) -> Result<Bx, NoMemory>
    requires from_low { along axis a.now.lo ≤ℤ i }
    requires to_high { i ≤ℤ along axis a.now.hi }
    ensures rest { IfOk result (λ rest. rest ≡ from_cut axis i a.now) }
    ensures pushed { OnOk result (left.new.items ≡ left.old.items ++ low_part axis i a.now) }
{
    if low_of(a, axis) < i {
        let (low, rest) = a.cut_at(axis, i);
        left.push(low)?;
        Ok(rest)
    } else {
        Ok(*a)
    }
}

/// Puts the part above `i` aside, and gives the rest.
fn push_high(left: &mut Vec<Bx>, axis: Axis, a: &Bx, i: i32) -> Result<Bx, NoMemory>
    requires from_low { along axis a.now.lo ≤ℤ i }
    requires to_high { i ≤ℤ along axis a.now.hi }
    ensures rest { IfOk result (λ rest. rest ≡ below_cut axis (i +ℤ pos 1) a.now) }
    ensures pushed { OnOk result (left.new.items ≡ left.old.items ++ high_part axis (i +ℤ pos 1) a.now) }
{
    if i < high_of(a, axis) {
        let (rest, high) = a.cut_at(axis, next(i, high_of(a, axis)));
        left.push(high)?;
        Ok(rest)
    } else {
        Ok(*a)
    }
}
