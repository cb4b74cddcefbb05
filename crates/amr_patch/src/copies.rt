//! Patches made for a list of boxes, row by row, and copies of patches.

ghost use Rattle.std.specs.Prelude.{IfOk};
ghost use Rattle.std.specs.List.Sorted.{IsPermutation};
ghost use Rattle.amr_patch.specs.Orders.{AreBoxesInRows};
ghost use Rattle.amr_patch.specs.Pairwise.{Pairwise};
ghost use Rattle.amr_patch.specs.Patches.{AreNear, IsBlank, IsCopy};

use crate::patches::Patch;
use amr_box::Bx;
use amr_causes::NoMemory;
use std::alloc::Global;

/// The boxes in the order of their low corners, row by row.
pub(crate) fn in_rows(alloc: Global, boxes: &[Bx]) -> Result<Vec<Bx>, NoMemory>
    ensures same { IfOk result (λ v. IsPermutation boxes.now v.items) }
    ensures in_rows { IfOk result (λ v. AreBoxesInRows v.items) }
{
    let mut sorted = Vec::from_slice(alloc, boxes)?;
    sorted.sort_unstable_by_key(|b| {
        let lo = b.lo();
        (lo.y, lo.x)
    });
    Ok(sorted)
}

/// A patch for each box, whose masses are 0.
pub(crate) fn blank_patches(alloc: Global, boxes: &[Bx]) -> Result<Vec<Patch>, NoMemory>
    requires { AreNear boxes.now }
    ensures { IfOk result (λ v. Pairwise IsBlank boxes.now v.items) }
{
    let mut patches = Vec::new(alloc);
    for b in boxes {
        let (_low, _high) = (b.lo(), b.hi());
        patches.push(Patch::make(alloc, *b)?)?;
    }
    Ok(patches)
}

/// A copy of each patch.
pub(crate) fn copied_patches(alloc: Global, patches: &[Patch]) -> Result<Vec<Patch>, NoMemory>
    ensures { IfOk result (λ v. Pairwise IsCopy patches.now v.items) }
{
    let mut copies = Vec::new(alloc);
    for p in patches {
        copies.push(p.copy()?)?;
    }
    Ok(copies)
}
