//! A plan of a level's frames in parts: what is copied from run to run of its patches, and all else.

ghost use Rattle.std.specs.Prelude.{◌≡◌, ℕ, ◌+◌, ◌*◌, ◌<◌, ◌^◌, length, slice_index_or, List, [], IfOk, OnOk};
ghost use Rattle.std.specs.List.{All};
ghost use Rattle.amr_ghost.specs.declared.sources.GhostSpan.{GhostSpan};
ghost use Rattle.amr_ghost.specs.Parts.{ArePartedTo, IsParted, IsSpanBelow};

use crate::plan::FramePlan;
use crate::sides::Strip;
use crate::sources::{GhostSpan, Source};
use amr_box::Cell;
use amr_causes::NoMemory;
use std::alloc::Global;

/// A strip of ghost cells beside a patch of a run that get masses of a patch of a run, the same or another. Each is numbered within
/// its run.
#[derive(Clone, Copy, Debug)]
pub struct FrameCopy {
    pub(crate) patch: usize,
    pub(crate) strip: Strip,
    pub(crate) source: usize,
    pub(crate) from: Cell,
}

/// A plan of a level's frames in parts, where the patches of the level stand in runs of as many each, in order.
#[derive(Drop)]
pub struct FrameParts {
    /// The ghost cells that get no mass of a patch of the level, by the run that they are beside. Their patches are numbered within it.
    pub outer: Vec<Vec<GhostSpan>>,
    /// All others, by the run that they get masses of, and for each by the run that they are beside.
    pub copies: Vec<Vec<FrameCopy>>,
}

/// Adds a span to the part that it belongs to.
fn part_span(
    parts: &mut FrameParts,
    span: GhostSpan,
    width: usize,
    runs: usize,
) -> Result<(), NoMemory>
    requires some { 0 < width }
    requires few { runs < 2 ^ 32 }
    requires outer_count { length parts.old.outer.items ≡ runs }
    requires count { length parts.old.copies.items ≡ runs * runs }
    requires there { IsSpanBelow (runs * width) span }
    ensures { OnOk result ((spans : List GhostSpan) (k : ℕ) → k < length spans → slice_index_or spans k span ≡ span → ArePartedTo spans k width runs parts.old
        → ArePartedTo spans (k + 1) width runs parts.new) }
{
    let Source::Beside(source, from) = span.source else {
        let outer = GhostSpan {
            patch: span.patch % width,
            strip: span.strip,
            source: span.source,
        };
        parts.outer[span.patch / width].push(outer)?;
        return Ok(());
    };
    let copy = FrameCopy {
        patch: span.patch % width,
        strip: span.strip,
        source: source % width,
        from,
    };
    parts.copies[source / width * runs + span.patch / width].push(copy)?;
    Ok(())
}

/// So many empty lists.
fn no_lists<T: Copy>(alloc: Global, count: usize) -> Result<Vec<Vec<T>>, NoMemory>
    ensures count { IfOk result (λ lists. length lists.items ≡ count) }
    ensures empty { IfOk result (λ lists. All (λ v. v.items ≡ []) lists.items) }
{
    let mut lists = Vec::with_capacity(alloc, count)?;
    for _ in 0..count {
        lists.push(Vec::new(alloc))?;
    }
    Ok(lists)
}

/// Parts a plan for so many runs of `width` patches each; the last ones may be shorter. `NoMemory` is the only refusal.
pub fn part_frames(
    alloc: Global,
    plan: &FramePlan,
    width: usize,
    runs: usize,
) -> Result<FrameParts, NoMemory>
    requires some { 0 < width }
    requires few { runs < 2 ^ 32 }
    requires enough { All (IsSpanBelow (runs * width)) plan.now.spans.items }
    ensures { IfOk result (IsParted plan.now width runs) }
{
    let mut parts = FrameParts {
        outer: no_lists(alloc, runs)?,
        copies: no_lists(alloc, runs * runs)?,
    };
    for k in 0..plan.spans.len() {
        part_span(&mut parts, plan.spans[k], width, runs)?;
    }
    Ok(parts)
}
