//! Plans of frames: where each ghost cell gets its value from, worked out once for boxes that stay.

ghost use Rattle.std.specs.Prelude.{◌<◌, ◌≤◌, length, slice_index_or, IfOk, OnOk};
ghost use Rattle.std.specs.Option.{option_copied};
ghost use Rattle.std.specs.List.{All};
ghost use Rattle.amr_def.specs.Domain.{domain};
ghost use Rattle.amr_patch.specs.declared.patches.Patch.{Patch};
ghost use Rattle.amr_patch.specs.Orders.{IsOrderOf};
ghost use Rattle.amr_patch.specs.Patches.{ArePatchesApart, box};
ghost use Rattle.amr_patch.specs.Gaps.{HasStarts};
ghost use Rattle.amr_ghost.specs.Strips.{HasRoom};
ghost use Rattle.amr_ghost.specs.Frames.{AreInDomain};
ghost use Rattle.amr_ghost.specs.GhostCells.{IsGhostStrip, IsLevelInOrder, side_axis, side_count, side_from};
ghost use Rattle.amr_ghost.specs.Plans.{HaveFrame, HaveStrip, IsSpan, KeepSpans, PlansFrames, PlansRun};

use crate::lookup::{NearSides, Target, near_first};
use crate::places::step;
use crate::sides::{Side, Strip, side_strip};
use crate::sources::{GhostSpan, span_ahead};
use amr_causes::NoMemory;
use amr_def::Problem;
use amr_patch::{Order, Patch, Starts};
use std::alloc::Global;

/// Where each ghost cell beside each patch of a level gets its value from. It depends on boxes alone, so it serves until a regrid.
#[derive(Drop)]
pub struct FramePlan {
    pub(crate) spans: Vec<GhostSpan>,
}

impl FramePlan {
    ghost use Rattle.std.specs.Prelude.{◌≡◌, []};

    /// A plan of no ghost cells, for patches whose frames are filled otherwise.
    pub fn none(alloc: Global) -> FramePlan
        ensures { result.spans.items ≡ [] }
    {
        FramePlan {
            spans: Vec::new(alloc),
        }
    }
}

/// Adds the spans of the ghost cells of a strip beside a patch.
fn plan_strip(
    p: &Problem,
    patches: &[Patch],
    target: Target<'_>,
    strip: Strip,
    near: &mut usize,
    spans: &mut Vec<GhostSpan>,
) -> Result<(), NoMemory>
    requires level { target.level ≤ 4 }
    requires patches { IsLevelInOrder (domain p.now target.level) target.order (option_copied target.starts) patches.now }
    requires there { target.patch < length patches.now }
    requires small { strip.count ≤ 8192 }
    requires room { HasRoom strip.from }
    requires ghost_strip { (q : Patch)
        → IsGhostStrip (domain p.now target.level) (box (slice_index_or patches.now target.patch q)) strip.axis strip.from strip.count }
    requires spans { All (IsSpan (domain p.now target.level) patches.now) spans.old.items }
    ensures spans { OnOk result (All (IsSpan (domain p.now target.entry.level) patches.now) spans.new.items) }
    ensures kept { OnOk result (KeepSpans spans.old.items spans.new.items) }
    ensures made { OnOk result (HaveStrip spans.new.items target.entry.patch strip.axis strip.from strip.count) }
{
    let mut done = 0;
    while done < strip.count {
        let rest = Strip {
            axis: strip.axis,
            from: step(strip.axis, strip.from, done),
            count: strip.count - done,
        };
        let span = span_ahead(p, patches, target, rest, near);
        spans.push(span)?;
        done += span.strip.count;
    }
    Ok(())
}

/// Adds the spans of the ghost cells on a side of a patch.
fn plan_side(
    p: &Problem,
    patches: &[Patch],
    target: Target<'_>,
    side: Side,
    near: &mut usize,
    spans: &mut Vec<GhostSpan>,
) -> Result<(), NoMemory>
    requires level { target.level ≤ 4 }
    requires patches { IsLevelInOrder (domain p.now target.level) target.order (option_copied target.starts) patches.now }
    requires there { target.patch < length patches.now }
    requires spans { All (IsSpan (domain p.now target.level) patches.now) spans.old.items }
    ensures spans { OnOk result (All (IsSpan (domain p.now target.entry.level) patches.now) spans.new.items) }
    ensures kept { OnOk result (KeepSpans spans.old.items spans.new.items) }
    ensures made { OnOk result ((q : Patch)
        → HaveStrip spans.new.items target.entry.patch (side_axis side) (side_from (box (slice_index_or patches.now target.entry.patch q)) side)
        (side_count (box (slice_index_or patches.now target.entry.patch q)) side)) }
{
    let strip = side_strip(&patches[target.patch].bx(), side);
    plan_strip(p, patches, target, strip, near, spans)
}

/// Adds the spans of the ghost cells beside a patch.
fn plan_frame(
    p: &Problem,
    patches: &[Patch],
    target: Target<'_>,
    near: &mut NearSides,
    spans: &mut Vec<GhostSpan>,
) -> Result<(), NoMemory>
    requires level { target.level ≤ 4 }
    requires patches { IsLevelInOrder (domain p.now target.level) target.order (option_copied target.starts) patches.now }
    requires there { target.patch < length patches.now }
    requires spans { All (IsSpan (domain p.now target.level) patches.now) spans.old.items }
    ensures spans { OnOk result (All (IsSpan (domain p.now target.entry.level) patches.now) spans.new.items) }
    ensures kept { OnOk result (KeepSpans spans.old.items spans.new.items) }
    ensures made { OnOk result (HaveFrame patches.now spans.new.items target.entry.patch) }
{
    plan_side(p, patches, target, Side::West, &mut near.west, spans)?;
    plan_side(p, patches, target, Side::East, &mut near.east, spans)?;
    plan_side(p, patches, target, Side::South, &mut near.south, spans)?;
    plan_side(p, patches, target, Side::North, &mut near.north, spans)
}

/// Where the ghost cells beside the patches of a level get their values from, for those from the target's on to before patch `to`.
/// Its look-ups begin with the first patch of the level.
pub(crate) fn plan_run(
    alloc: Global,
    p: &Problem,
    patches: &[Patch],
    first: Target<'_>,
    to: usize,
) -> Result<Vec<GhostSpan>, NoMemory>
    requires level { first.level ≤ 4 }
    requires patches { IsLevelInOrder (domain p.now first.level) first.order (option_copied first.starts) patches.now }
    requires there { to ≤ length patches.now }
    ensures { IfOk result (λ v. PlansRun (domain p.now first.entry.level) patches.now first.entry.patch to v.items) }
{
    let mut near = near_first();
    let mut spans = Vec::new(alloc);
    for i in first.patch..to {
        let target = Target { patch: i, ..first };
        plan_frame(p, patches, target, &mut near, &mut spans)?;
    }
    Ok(spans)
}

/// Where the ghost cells beside the patches of level `l`, from 0 to 4, get their values from. `NoMemory` is the only refusal.
///
/// The patches are those of the whole level: no cell is in two of them, and each is a cell of the domain. `starts` tells where they
/// start, and `order` how they stand.
pub fn plan_frames(
    alloc: Global,
    p: &Problem,
    l: u32,
    patches: &[Patch],
    order: Order,
    starts: &Starts,
) -> Result<FramePlan, NoMemory>
    requires level { l ≤ 4 }
    requires order { IsOrderOf order patches.now }
    requires starts { HasStarts patches.now starts.now }
    requires apart { ArePatchesApart patches.now }
    requires inside { AreInDomain (domain p.now l) patches.now }
    ensures { IfOk result (PlansFrames (domain p.now l) patches.now) }
{
    let first = Target {
        level: l,
        order,
        starts: Some(starts),
        patch: 0,
    };
    let spans = plan_run(alloc, p, patches, first, patches.len())?;
    Ok(FramePlan { spans })
}
