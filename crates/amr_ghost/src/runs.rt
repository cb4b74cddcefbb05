//! Plans of frames worked out in threads: each for a run of patches.

ghost use Rattle.std.specs.Prelude.{ℕ, ◌+◌, ◌*◌, ◌<◌, ◌≤◌, List, length, IfOk};
ghost use Rattle.std.specs.declared.option.Option.TheVariants.{Some};
ghost use Rattle.amr_def.specs.Domain.{Domain, domain};
ghost use Rattle.amr_patch.specs.declared.patches.Patch.{Patch};
ghost use Rattle.amr_patch.specs.Orders.{IsOrderOf};
ghost use Rattle.amr_patch.specs.Patches.{ArePatchesApart};
ghost use Rattle.amr_patch.specs.Gaps.{HasStarts};
ghost use Rattle.amr_ghost.specs.Frames.{AreInDomain};
ghost use Rattle.amr_ghost.specs.GhostCells.{IsLevelInOrder};
ghost use Rattle.amr_ghost.specs.Plans.{ArePlannedRuns, PlansFrames, PlansRun};

use crate::lookup::Target;
use crate::plan::{FramePlan, plan_frames, plan_run};
use crate::sources::GhostSpan;
use amr_causes::NoMemory;
use amr_def::Problem;
use amr_patch::{Order, Patch, Starts};
use std::alloc::Global;
use std::thread::{Threads, map_chunks};

/// How many patches are worth a thread: the frames of fewer ones are planned sooner than it begins.
const MANY: usize = 256;

/// The spans of all runs, in order. `NoMemory` where a run has none.
fn join_runs(
    alloc: Global,
    runs: Vec<Result<Vec<GhostSpan>, NoMemory>>,
) -> Result<Vec<GhostSpan>, NoMemory>
    ensures { IfOk result (λ v. (d : Domain) (ps : List Patch) (size : ℕ) → ArePlannedRuns d ps size runs.items
        → PlansRun d ps 0 (length runs.items * size) v.items) }
{
    let mut all = Vec::new(alloc);
    for run in runs {
        let mut spans = run?;
        all.append(&mut spans)?;
    }
    Ok(all)
}

/// Where the ghost cells beside the patches of level `l`, from 0 to 4, get their values from, as `plan_frames` tells it. The patches
/// are shared out by runs, and at most `threads` runs are planned at once.
pub fn plan_frames_in_threads<R: Threads + Sync>(
    rt: &R,
    threads: usize,
    alloc: Global,
    p: &Problem,
    l: u32,
    patches: &[Patch],
    order: Order,
    starts: &Starts,
) -> Result<FramePlan, NoMemory>
    requires level { l ≤ 4 }
    requires order { IsOrderOf order patches.now }
    requires starts { HasStarts patches.now starts.now }
    requires apart { ArePatchesApart patches.now }
    requires inside { AreInDomain (domain p.now l) patches.now }
    ensures { IfOk result (PlansFrames (domain p.now l) patches.now) }
{
    if threads < 2 || patches.len() < MANY {
        return plan_frames(alloc, p, l, patches, order, starts);
    }
    let plan = move |from: usize, run: &[Patch]| -> Result<Vec<GhostSpan>, NoMemory>
        requires level { l ≤ 4 }
        requires patches { IsLevelInOrder (domain p.now l) order (Some starts.now) patches.now }
        requires within { from + length run.now ≤ length patches.now }
        ensures { IfOk result (λ v. PlansRun (domain p.entry.now l) patches.entry.now from (from + length run.now) v.items) }
    {
        let first = Target {
            level: l,
            order,
            starts: Some(starts),
            patch: from,
        };
        plan_run(alloc, p, patches, first, from + run.len())
    };
    let size = patches.len().div_ceil(threads);
    let runs = map_chunks(rt, alloc, patches, size, &plan)?;
    let spans = join_runs(alloc, runs)?;
    Ok(FramePlan { spans })
}
