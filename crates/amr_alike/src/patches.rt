//! Boxes of patches.

ghost use Rattle.std.specs.Prelude.{◌≡◌, IfOk, IsTrue, map};
ghost use Rattle.amr_patch.specs.Patches.{box};

use crate::boxes::is_same;
use amr_box::Bx;
use amr_causes::NoMemory;
use amr_patch::Patch;
use std::alloc::Global;

/// Whether patches have these boxes, in the same order. It says yes of no others.
pub fn have_boxes(patches: &[Patch], boxes: &[Bx]) -> bool
    ensures { IsTrue result → map box patches.now ≡ boxes.now }
{
    if patches.len() != boxes.len() {
        return false;
    }
    for k in 0..boxes.len() {
        if !is_same(&patches[k].bx(), &boxes[k]) {
            return false;
        }
    }
    true
}

/// Whether two lists of patches have the same boxes, in the same order. It says yes of no others.
pub fn have_same_boxes(a: &[Patch], b: &[Patch]) -> bool
    ensures { IsTrue result → map box a.now ≡ map box b.now }
{
    if a.len() != b.len() {
        return false;
    }
    for k in 0..a.len() {
        if !is_same(&a[k].bx(), &b[k].bx()) {
            return false;
        }
    }
    true
}

/// The boxes of patches, in their order. `NoMemory` is the only refusal.
pub fn boxes_of(alloc: Global, patches: &[Patch]) -> Result<Vec<Bx>, NoMemory>
    ensures { IfOk result (λ bs. bs.items ≡ map box patches.now) }
{
    let mut boxes = Vec::new(alloc);
    for patch in patches {
        boxes.push(patch.bx())?;
    }
    Ok(boxes)
}
