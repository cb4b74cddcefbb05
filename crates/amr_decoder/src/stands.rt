//! Whether a level stands over the next coarser one: nested in it, and in sync with it.

ghost use Rattle.std.specs.Prelude.{◌≡◌, ◌&&◌, ◌+◌, ◌≤◌, IfOk};
ghost use Rattle.std.specs.List.{All};
ghost use Rattle.amr_def.specs.Domain.{domain};
ghost use Rattle.amr_def.specs.Facts.{IsAligned, IsLevel};
ghost use Rattle.amr_patch.specs.Levels.{level_of};
ghost use Rattle.amr_payload.specs.Tests.{is_in_sync, surrounds};

use crate::sync::are_boxes_in_sync;
use amr_causes::NoMemory;
use amr_def::Problem;
use amr_nest::nested;
use amr_patch::Level;
use std::alloc::Global;

/// Whether each cell of level `l` at most one away from a parent of a finer cell is in one of its boxes.
fn surrounds(
    alloc: Global,
    p: &Problem,
    l: u32,
    coarse: &Level,
    fine: &Level,
) -> Result<bool, NoMemory>
    requires level { l ≤ 3 }
    requires coarse { IsLevel p.now l (level_of coarse.now) }
    requires fine { IsLevel p.now (l + 1) (level_of fine.now) }
    requires aligned { All (IsAligned p.now.blocking) (level_of fine.now).boxes }
    ensures { IfOk result (λ yes. yes ≡ surrounds (domain p.now l) (level_of coarse.now).boxes (level_of fine.now).boxes) }
{
    let dom = p.domain(l);
    let fine_boxes = fine.boxes();
    let coarse_boxes = coarse.boxes();
    nested(alloc, fine_boxes, coarse_boxes, &dom, p.blocking)
}

/// Whether a level of the problem, with aligned boxes, is nested in level `l` below it, and in sync with it. Memory is taken
/// for two bits for each cell of the domain of level `l`.
pub fn stands_over(
    alloc: Global,
    p: &Problem,
    l: u32,
    coarse: &Level,
    fine: &Level,
) -> Result<bool, NoMemory>
    requires level { l ≤ 3 }
    requires coarse { IsLevel p.now l (level_of coarse.now) }
    requires fine { IsLevel p.now (l + 1) (level_of fine.now) }
    requires aligned { All (IsAligned p.now.blocking) (level_of fine.now).boxes }
    ensures { IfOk result (λ yes. yes
        ≡ (surrounds (domain p.now l) (level_of coarse.now).boxes (level_of fine.now).boxes
        && is_in_sync (domain p.now l) (level_of coarse.now).masses (level_of fine.now).masses)) }
{
    let nested = surrounds(alloc, p, l, coarse, fine)?;
    if !nested {
        return Ok(false);
    }
    Ok(are_boxes_in_sync(p, l, coarse, fine))
}
