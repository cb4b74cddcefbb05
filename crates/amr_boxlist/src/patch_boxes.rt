//! Boxes chopped into patch boxes of at most `max` by `max` cells.

ghost use Rattle.std.specs.Prelude.{◌≡◌, ℕ, ◌+◌, ◌-◌, ◌*◌, ◌<◌, ◌≤◌, ◌^◌, ◌++◌, IfOk, OnOk, pos, ◌+ℤ◌, ◌-ℤ◌, ◌≤ℤ◌, map};
ghost use Rattle.std.specs.Int.{int_min};
ghost use Rattle.std.specs.List.{flat_map, range_with_len};
ghost use Rattle.amr_box.specs.Cells.{at_least_zero, height, width};
ghost use Rattle.amr_boxlist.specs.Chopped.{chopped, patch_box_count, patch_box_row};

use amr_box::{Bx, Cell};
use amr_causes::NoMemory;
use std::alloc::Global;

/// The patch boxes of the boxes, in their order.
pub fn chop_all(alloc: Global, boxes: &[Bx], max: u32) -> Result<Vec<Bx>, NoMemory>
    requires { 1 ≤ max }
    ensures { IfOk result (λ patch_boxes. patch_boxes.items ≡ flat_map (chopped max) boxes.now) }
{
    let mut patch_boxes = Vec::new(alloc);
    for b in boxes {
        push_patch_boxes(&mut patch_boxes, b, max)?;
    }
    Ok(patch_boxes)
}

fn push_patch_boxes(patch_boxes: &mut Vec<Bx>, b: &Bx, max: u32) -> Result<(), NoMemory>
    requires { 1 ≤ max }
    ensures { OnOk result (patch_boxes.new.items ≡ patch_boxes.old.items ++ chopped max b.now) }
{
    let rows = count(b.lo().y, b.hi().y, max);
    for j in 0..rows {
        push_row(patch_boxes, b, max, j)?;
    }
    Ok(())
}

fn push_row(patch_boxes: &mut Vec<Bx>, b: &Bx, max: u32, j: u64) -> Result<(), NoMemory>
    requires some { 1 ≤ max }
    requires there { pos (max * j) ≤ℤ (b.now.hi.y -ℤ b.now.lo.y) }
    ensures { OnOk result (patch_boxes.new.items ≡ patch_boxes.old.items ++ patch_box_row max b.now j) }
{
    let columns = count(b.lo().x, b.hi().x, max);
    let (south, north) = span(b.lo().y, b.hi().y, max, j);
    for i in 0..columns {
        let (west, east) = span(b.lo().x, b.hi().x, max, i);
        let low = Cell { x: west, y: south };
        let high = Cell { x: east, y: north };
        patch_boxes.push(Bx::try_new(low, high).unwrap())?;
    }
    Ok(())
}

/// How many coordinates there are from `low` to `high`.
fn side(low: i32, high: i32) -> u64
    requires { low ≤ℤ high }
    ensures value { result ≡ at_least_zero (high +ℤ pos 1 -ℤ low) }
    ensures corners { pos result ≡ high +ℤ pos 1 -ℤ low }
    ensures small { result ≤ 2 ^ 32 }
{
    (i64::from(high) - i64::from(low) + 1) as u64
}

/// How many patch boxes cover the coordinates from `low` to `high`.
fn count(low: i32, high: i32, max: u32) -> u64
    requires order { low ≤ℤ high }
    requires some { 1 ≤ max }
    ensures value { result ≡ patch_box_count max (at_least_zero (high +ℤ pos 1 -ℤ low)) }
    ensures within { (k : ℕ) → k < result → pos (max * k) ≤ℤ (high -ℤ low) }
{
    (side(low, high) + u64::from(max - 1)) / u64::from(max)
}

/// The first and the last coordinate of patch box `k`.
fn span(low: i32, high: i32, max: u32, k: u64) -> (i32, i32)
    requires some { 1 ≤ max }
    requires there { pos (max * k) ≤ℤ (high -ℤ low) }
    ensures from { result.0 ≡ low +ℤ pos (max * k) }
    ensures to { result.1 ≡ int_min (low +ℤ pos (max * k + (max - 1))) high }
    ensures in_order { result.0 ≤ℤ result.1 }
{
    let offset = u64::from(max) * k;
    let last = offset + u64::from(max - 1);
    let from = i64::from(low) + offset as i64;
    let to = i64::from(low) + last as i64;
    (from as i32, to.min(i64::from(high)) as i32)
}
